// The calls for C. Each is the crate foldplover's call of the same name, which promises the same: a crate is a library for other crates or
// one for C, and not both.
#![tactic(auto)]

ghost use Rattle.std.specs.Prelude.{◌≡◌, [], ◌∷◌, map};
ghost use Rattle.policy.specs.Fields.{limits};
ghost use Rattle.policy.specs.Values.{rule_of};
ghost use Rattle.records.specs.Calls.{RecordRead, RecordWritten};
ghost use Rattle.orders.specs.Split.{Split};
ghost use Rattle.orders.specs.Join.{Join};
ghost use Rattle.promises.specs.Calls.{Moves, Checks, Lists, cell_bytes, cell_list_size, gate_bytes, gate_list_size};
ghost use Rattle.promises.specs.Edits.{Edits, request, asked};
ghost use Rattle.promises.specs.declared.Change.TheVariants.{Insert, Delete, Replace};
ghost use Rattle.filter.specs.Lookup.{lookup, lookup_number};
ghost use Rattle.table.specs.Table.{lookup_table};
ghost use Rattle.origins.specs.Origin.{Origins};
ghost use Rattle.reporting.specs.Report.{Reports};
ghost use Rattle.foldplover.specs.Coded.{Coded};

use policy::Rule;

#[unsafe(no_mangle)]
pub extern "C" fn foldplover_move(order: &[u8], sheet: &mut [u8], work: &mut [u8]) -> u32
    ensures { Coded (λ q. Moves order.now sheet.old work.old q sheet.new work.new) result }
{
    foldplover::foldplover_move(order, sheet, work)
}

#[unsafe(no_mangle)]
pub extern "C" fn foldplover_insert(
    sheet: &mut [u8],
    used: usize,
    which: u32,
    place: usize,
    bytes: &[u8],
    work: &mut [u8],
) -> u32
    ensures { Coded (λ q. Edits sheet.old used (asked (request which place Insert) bytes.now) work.old q sheet.new work.new) result }
{
    foldplover::foldplover_insert(sheet, used, which, place, bytes, work)
}

#[unsafe(no_mangle)]
pub extern "C" fn foldplover_delete(
    sheet: &mut [u8],
    used: usize,
    which: u32,
    place: usize,
    work: &mut [u8],
) -> u32
    ensures { Coded (λ q. Edits sheet.old used (asked (request which place Delete) []) work.old q sheet.new work.new) result }
{
    foldplover::foldplover_delete(sheet, used, which, place, work)
}

#[unsafe(no_mangle)]
pub extern "C" fn foldplover_replace(
    sheet: &mut [u8],
    used: usize,
    which: u32,
    place: usize,
    bytes: &[u8],
    work: &mut [u8],
) -> u32
    ensures { Coded (λ q. Edits sheet.old used (asked (request which place Replace) bytes.now) work.old q sheet.new work.new) result }
{
    foldplover::foldplover_replace(sheet, used, which, place, bytes, work)
}

#[unsafe(no_mangle)]
pub extern "C" fn foldplover_check(sheet: &[u8], work: &mut [u8]) -> u32
    ensures { Coded (λ q. Checks sheet.now work.old q work.new) result }
{
    foldplover::foldplover_check(sheet, work)
}

#[unsafe(no_mangle)]
pub extern "C" fn foldplover_cell_list(sheet: &[u8], out: &mut [u8], work: &mut [u8]) -> u32
    ensures { Coded (λ q. Lists cell_bytes cell_list_size sheet.now out.old work.old q out.new work.new) result }
{
    foldplover::foldplover_cell_list(sheet, out, work)
}

#[unsafe(no_mangle)]
pub extern "C" fn foldplover_gate_list(sheet: &[u8], out: &mut [u8], work: &mut [u8]) -> u32
    ensures { Coded (λ q. Lists gate_bytes gate_list_size sheet.now out.old work.old q out.new work.new) result }
{
    foldplover::foldplover_gate_list(sheet, out, work)
}

#[unsafe(no_mangle)]
pub extern "C" fn foldplover_split(order: &[u8], a: &mut [u8], b: &mut [u8]) -> u32
    ensures { Coded (λ q. Split order.now a.old b.old q a.new b.new) result }
{
    foldplover::foldplover_split(order, a, b)
}

#[unsafe(no_mangle)]
pub extern "C" fn foldplover_join(a: &[u8], b: &[u8], order: &mut [u8]) -> u32
    ensures { Coded (λ q. Join a.now b.now order.old q order.new) result }
{
    foldplover::foldplover_join(a, b, order)
}

#[unsafe(no_mangle)]
pub extern "C" fn foldplover_rule(bytes: &[u8], numbers: &mut [u32]) -> u32
    ensures { Coded (λ q. RecordRead bytes.now numbers.old q numbers.new) result }
{
    foldplover::foldplover_rule(bytes, numbers)
}

#[unsafe(no_mangle)]
pub extern "C" fn foldplover_record(numbers: &[u32], bytes: &mut [u8]) -> u32
    ensures { Coded (λ q. RecordWritten numbers.now bytes.old q bytes.new) result }
{
    foldplover::foldplover_record(numbers, bytes)
}

#[unsafe(no_mangle)]
pub extern "C" fn foldplover_lookup(
    src: u32,
    dst: u32,
    sport: u32,
    dport: u32,
    proto: u32,
    list: &[u8],
) -> u32
    ensures { result ≡ lookup_number (lookup limits.total (src ∷ dst ∷ sport ∷ dport ∷ proto ∷ []) list.now) }
{
    foldplover::foldplover_lookup(src, dst, sport, dport, proto, list)
}

#[unsafe(no_mangle)]
pub extern "C" fn foldplover_lookup_table(
    src: u32,
    dst: u32,
    sport: u32,
    dport: u32,
    proto: u32,
    rules: &[Rule],
) -> u32
    ensures { result ≡ lookup_number (lookup_table limits.total (src ∷ dst ∷ sport ∷ dport ∷ proto ∷ []) (map rule_of rules.now)) }
{
    foldplover::lookup_table::foldplover_lookup_table(src, dst, sport, dport, proto, rules)
}

#[unsafe(no_mangle)]
pub extern "C" fn foldplover_origin(
    src: u32,
    dst: u32,
    sport: u32,
    dport: u32,
    proto: u32,
    sheet: &[u8],
    numbers: &mut [u32],
    work: &mut [u8],
) -> u32
    ensures { Coded (λ q. Origins (src ∷ dst ∷ sport ∷ dport ∷ proto ∷ []) sheet.now numbers.old work.old q numbers.new work.new) result }
{
    foldplover::foldplover_origin(src, dst, sport, dport, proto, sheet, numbers, work)
}

#[unsafe(no_mangle)]
pub extern "C" fn foldplover_report(
    sheet: &[u8],
    packets: &[u8],
    earlier: &[u8],
    later: &[u8],
    totals: &mut [u64],
    hits: &mut [u32],
    work: &mut [u8],
) -> u32
    ensures { Coded (λ q. Reports sheet.now packets.now earlier.now later.now totals.old hits.old work.old q totals.new hits.new work.new) result }
{
    foldplover::foldplover_report(sheet, packets, earlier, later, totals, hits, work)
}
