// Why a packet is refused (02, No. 7): the rule that is broken, and the item that breaks it.

#![tactic(auto)]

ghost use Rattle.std.specs.Prelude.{◌≡◌};
ghost use Rattle.format.specs.Reasons.{Explains};
ghost use Rattle.wire.specs.WireAnswers.{rule_meaning};
ghost use Rattle.packets.specs.PacketAnswers.{link_kind};
ghost use Rattle.why.specs.WhyAnswers.{reason_meaning, spec_reason_numbers, rule_code};

use packets::{Link, packet_step};
use wire::{Fault, Rule};

// The fault that decides what `packets::read_packet` answers to the same bytes, if there is one.
pub fn why(s: &[u8], link: Link) -> Option<Fault>
    ensures { Explains (link_kind link) s.now (reason_meaning result) }
{
    packet_step(s, link).err()
}

// The number that a rule has for callers from C. The C interface fixes it, and it is not that of `Rule::number`.
fn code_of(rule: Rule) -> u8
    ensures { result ≡ rule_code (rule_meaning rule) }
{
    match rule {
        Rule::Short => 1,
        Rule::Opening => 2,
        Rule::FrameLength => 3,
        Rule::Kind => 4,
        Rule::Choice => 5,
        Rule::StatusBit => 6,
        Rule::BytesCeiling => 7,
        Rule::DepthCeiling => 8,
        Rule::NameCeiling => 9,
        Rule::GapCeiling => 10,
        Rule::Rest => 11,
        Rule::Order => 12,
        Rule::DataLength => 13,
        Rule::SizeTag => 14,
    }
}

// Number, rule, offset and size of a reason, as a caller from C gets them.
pub fn reason_numbers(reason: Option<Fault>) -> [u64; 4]
    ensures { result ≡ spec_reason_numbers (reason_meaning reason) }
{
    match reason {
        None => [0, 0, 0, 0],
        Some(fault) => {
            let rule = fault.rule;
            [
                rule.number() as u64,
                code_of(rule) as u64,
                fault.at as u64,
                fault.size as u64,
            ]
        }
    }
}
