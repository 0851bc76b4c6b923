// The lookup in a table of rules in memory, as C has it: it is lent the slice.
ghost use Rattle.std.specs.Prelude.{◌≡◌, [], ◌∷◌, map};
ghost use Rattle.policy.specs.Fields.{limits};
ghost use Rattle.policy.specs.Values.{rule_of};
ghost use Rattle.filter.specs.Lookup.{lookup_number};
ghost use Rattle.table.specs.Table.{lookup_table};

use crate::packet_of;
use policy::Rule;

pub fn foldplover_lookup_table(
    src: u32,
    dst: u32,
    sport: u32,
    dport: u32,
    proto: u32,
    rules: &[Rule],
) -> u32
    ensures { result ≡ lookup_number (lookup_table limits.total (src ∷ dst ∷ sport ∷ dport ∷ proto ∷ []) (map rule_of rules.now)) }
{
    table::lookup_number(packet_of(src, dst, sport, dport, proto), rules)
}
