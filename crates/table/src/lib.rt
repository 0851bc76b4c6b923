// Lookup of a packet in a table of rules in memory.
#![tactic(auto)]

ghost use Rattle.std.specs.Prelude.{◌≡◌, map};
ghost use Rattle.policy.specs.Fields.{limits};
ghost use Rattle.policy.specs.Values.{rule_of, packet_of};
ghost use Rattle.filter.specs.Lookup.{lookup_number, verdict};
ghost use Rattle.table.specs.Table.{lookup_table};

use filter::{Decision, Verdict, is_inside, verdict_number};
use policy::{Packet, Refusal, Rule, TOTAL_MOST};

// The first rule of a table that has the packet. A rule is tested before its box is. Other than in list bytes the fields that miss are
// counted (`is_inside`): nowhere is that slower than C over the same structs.
pub fn lookup(p: Packet, rules: &[Rule]) -> Verdict
    ensures { verdict result ≡ lookup_table limits.total (packet_of p) (map rule_of rules.now) }
{
    if rules.is_empty() || TOTAL_MOST < rules.len() {
        return Err(Refusal::CountOutside);
    }
    for (place, rule) in rules.iter().enumerate() {
        if !rule.is_sound() {
            return Err(Refusal::RuleBad);
        }
        if is_inside(p, rule.bounds) {
            return Ok(Decision {
                place,
                action: rule.action,
            });
        }
    }
    Err(Refusal::NotComplete)
}

// The same as the number for C.
pub fn lookup_number(p: Packet, rules: &[Rule]) -> u32
    ensures { result ≡ lookup_number (lookup_table limits.total (packet_of p) (map rule_of rules.now)) }
{
    verdict_number(lookup(p, rules))
}
