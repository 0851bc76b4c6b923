// The calls as C has them. Each hands over to the call of the crate below, and turns its answer into one number. The crate foldplover_c
// gives them to C.
#![tactic(auto)]

pub mod lookup_table;

ghost use Rattle.std.specs.Prelude.{◌≡◌, [], ◌∷◌};
ghost use Rattle.policy.specs.Fields.{limits};
ghost use Rattle.policy.specs.Refusals.{said};
ghost use Rattle.policy.specs.Values.{packet_of};
ghost use Rattle.records.specs.Calls.{RecordRead, RecordWritten};
ghost use Rattle.orders.specs.Split.{Split};
ghost use Rattle.orders.specs.Join.{Join};
ghost use Rattle.promises.specs.Calls.{Moves, Checks, Lists, cell_bytes, cell_list_size, gate_bytes, gate_list_size};
ghost use Rattle.promises.specs.Edits.{Edits, request, asked};
ghost use Rattle.promises.specs.declared.Change.TheVariants.{Insert, Delete, Replace};
ghost use Rattle.filter.specs.Lookup.{lookup, lookup_number};
ghost use Rattle.origins.specs.Origin.{Origins};
ghost use Rattle.reporting.specs.Report.{Reports};
ghost use Rattle.foldplover.specs.Coded.{coded, Plain, Coded};

use policy::{Answer, Packet, refused_number};
use promises::{Change, Request};

// Not a From: it asks that a value be below every refusal's number.
fn answer_number(a: Answer) -> u32
    requires { Plain (said a) }
    ensures { result ≡ coded (said a) }
{
    match a {
        Ok(n) => n as u32,
        Err(f) => refused_number(f),
    }
}

pub fn foldplover_move(order: &[u8], sheet: &mut [u8], work: &mut [u8]) -> u32
    ensures { Coded (λ q. Moves order.now sheet.old work.old q sheet.new work.new) result }
{
    answer_number(moving::move_order(order, sheet, work))
}

pub fn foldplover_insert(
    sheet: &mut [u8],
    used: usize,
    which: u32,
    place: usize,
    bytes: &[u8],
    work: &mut [u8],
) -> u32
    ensures { Coded (λ q. Edits sheet.old used (asked (request which place Insert) bytes.now) work.old q sheet.new work.new) result }
{
    let request = Request {
        which,
        place,
        change: Change::Insert,
    };
    answer_number(editing::edit(sheet, used, request, bytes, work))
}

pub fn foldplover_delete(
    sheet: &mut [u8],
    used: usize,
    which: u32,
    place: usize,
    work: &mut [u8],
) -> u32
    ensures { Coded (λ q. Edits sheet.old used (asked (request which place Delete) []) work.old q sheet.new work.new) result }
{
    let request = Request {
        which,
        place,
        change: Change::Delete,
    };
    answer_number(editing::edit(sheet, used, request, &[], work))
}

pub fn foldplover_replace(
    sheet: &mut [u8],
    used: usize,
    which: u32,
    place: usize,
    bytes: &[u8],
    work: &mut [u8],
) -> u32
    ensures { Coded (λ q. Edits sheet.old used (asked (request which place Replace) bytes.now) work.old q sheet.new work.new) result }
{
    let request = Request {
        which,
        place,
        change: Change::Replace,
    };
    answer_number(editing::edit(sheet, used, request, bytes, work))
}

pub fn foldplover_check(sheet: &[u8], work: &mut [u8]) -> u32
    ensures { Coded (λ q. Checks sheet.now work.old q work.new) result }
{
    answer_number(checking::check(sheet, work))
}

pub fn foldplover_cell_list(sheet: &[u8], out: &mut [u8], work: &mut [u8]) -> u32
    ensures { Coded (λ q. Lists cell_bytes cell_list_size sheet.now out.old work.old q out.new work.new) result }
{
    answer_number(listing::cell_list(sheet, out, work))
}

pub fn foldplover_gate_list(sheet: &[u8], out: &mut [u8], work: &mut [u8]) -> u32
    ensures { Coded (λ q. Lists gate_bytes gate_list_size sheet.now out.old work.old q out.new work.new) result }
{
    answer_number(listing::gate_list(sheet, out, work))
}

pub fn foldplover_split(order: &[u8], a: &mut [u8], b: &mut [u8]) -> u32
    ensures { Coded (λ q. Split order.now a.old b.old q a.new b.new) result }
{
    answer_number(orders::split(order, a, b))
}

pub fn foldplover_join(a: &[u8], b: &[u8], order: &mut [u8]) -> u32
    ensures { Coded (λ q. Join a.now b.now order.old q order.new) result }
{
    answer_number(orders::join(a, b, order))
}

pub fn foldplover_rule(bytes: &[u8], numbers: &mut [u32]) -> u32
    ensures { Coded (λ q. RecordRead bytes.now numbers.old q numbers.new) result }
{
    answer_number(records::rule(bytes, numbers))
}

pub fn foldplover_record(numbers: &[u32], bytes: &mut [u8]) -> u32
    ensures { Coded (λ q. RecordWritten numbers.now bytes.old q bytes.new) result }
{
    answer_number(records::record(numbers, bytes))
}

fn packet_of(src: u32, dst: u32, sport: u32, dport: u32, proto: u32) -> Packet
    ensures { packet_of result ≡ src ∷ dst ∷ sport ∷ dport ∷ proto ∷ [] }
{
    let values = [src, dst, sport, dport, proto];
    Packet { values }
}

pub fn foldplover_lookup(src: u32, dst: u32, sport: u32, dport: u32, proto: u32, list: &[u8]) -> u32
    ensures { result ≡ lookup_number (lookup limits.total (src ∷ dst ∷ sport ∷ dport ∷ proto ∷ []) list.now) }
{
    filter::lookup_number(packet_of(src, dst, sport, dport, proto), list)
}

pub fn foldplover_origin(
    src: u32,
    dst: u32,
    sport: u32,
    dport: u32,
    proto: u32,
    sheet: &[u8],
    numbers: &mut [u32],
    work: &mut [u8],
) -> u32
    ensures { Coded (λ q. Origins (src ∷ dst ∷ sport ∷ dport ∷ proto ∷ []) sheet.now numbers.old work.old q numbers.new work.new) result }
{
    let p = packet_of(src, dst, sport, dport, proto);
    answer_number(origins::origin(p, sheet, numbers, work))
}

pub fn foldplover_report(
    sheet: &[u8],
    packets: &[u8],
    earlier: &[u8],
    later: &[u8],
    totals: &mut [u64],
    hits: &mut [u32],
    work: &mut [u8],
) -> u32
    ensures { Coded (λ q. Reports sheet.now packets.now earlier.now later.now totals.old hits.old work.old q totals.new hits.new work.new) result }
{
    answer_number(reporting::report(sheet, packets, earlier, later, totals, hits, work))
}
