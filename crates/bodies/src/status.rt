// The bodies that tell a status: of a file, as one bit for each part; of a server, in two forms.
ghost use Rattle.std.specs.Prelude.{◌≡◌, ◌^◌, ◌<◌};
ghost use Rattle.format.specs.Messages.{file_status_body};
ghost use Rattle.format.specs.Messages.{status_request_body, status_body};
ghost use Rattle.format.specs.Bits.{spec_packed_bytes};
ghost use Rattle.format.specs.PacketOrder.{decode_bits, form_of, decode_extended_status, decode_body};
ghost use Rattle.bodies.specs.BodyAnswers.{body_meaning, BodyStepPlaced};
ghost use Rattle.bodies.specs.BodyAnswers.{form_meaning, bits_meaning, BitsStepInside, extended_status_meaning};

use crate::ranges::read_triple;
use crate::{Body, ExtendedStatus, FileStatus, Form, StatusRequest};
use wire::{Cursor, Fault, Rule, Step};

// 50

// 2 to the power of a number of bits of a byte.
fn power(bits: usize) -> usize
    requires { bits < 8 }
    ensures { result ≡ 2 ^ bits }
{
    1 << bits
}

// How many bytes the bits of so many parts take.
fn packed_bytes(parts: usize) -> usize
    ensures { result ≡ spec_packed_bytes parts }
{
    parts / 8 + (parts % 8 + 7) / 8
}

// The bits of so many parts. All their bytes must be there before the unused bits of the last one are checked.
pub fn read_bits(s: &[u8], c: Cursor, parts: usize) -> Step<usize>
    ensures result_value { bits_meaning parts s.now result ≡ decode_bits parts s.now c.at }
    ensures inside { BitsStepInside parts s.now result }
{
    let size = packed_bytes(parts);
    let (_, next) = c.run(s, size)?;
    let used = parts % 8;
    if used == 0 {
        return Ok((c.at, next));
    }
    let last = c.at + parts / 8;
    let byte = s[last];
    if (byte as usize) < power(used) {
        return Ok((c.at, next));
    }
    Err(Fault {
        rule: Rule::StatusBit,
        at: c.at,
        size,
    })
}

#[tactic(auto, unfolding(format::specs::PacketOrder::decode_body, format::specs::PacketOrder::decode_file_status))]
pub fn read_file_status(s: &[u8], c: Cursor) -> Step<Body>
    ensures meaning { body_meaning s.now result ≡ decode_body file_status_body s.now c.at }
    ensures placed { BodyStepPlaced s.now result }
{
    let (hash, after_hash) = c.hash(s)?;
    let (count, after_count) = after_hash.word(s)?;
    let parts = count as usize;
    let (bits, next) = read_bits(s, after_count, parts)?;
    let status = FileStatus { hash, parts, bits };
    Ok((Body::FileStatus(status), next))
}

// 96 and 97

// The last two bytes of the DWORD of an extended 96, which an extended 97 has too, after its two bytes.
const FIRST_MARK: u8 = 0xAA;

const SECOND_MARK: u8 = 0x5A;

const MARKS: u32 = 0x5AAA;

// The size of the body of a plain 97.
const PLAIN_STATUS_SIZE: usize = 12;

// The form is extended exactly if the last two bytes of the DWORD are AA 5A.
fn form_of(number: u32) -> Form
    ensures { form_meaning result ≡ form_of number }
{
    if number / 65536 == MARKS {
        return Form::Extended;
    }
    Form::Plain
}

#[tactic(auto, unfolding(format::specs::PacketOrder::decode_body, format::specs::PacketOrder::decode_status_request))]
pub fn read_status_request(s: &[u8], c: Cursor) -> Step<Body>
    ensures meaning { body_meaning s.now result ≡ decode_body status_request_body s.now c.at }
    ensures placed { BodyStepPlaced s.now result }
{
    let (number, next) = c.dword(s)?;
    let form = form_of(number);
    let request = StatusRequest { form, number };
    Ok((Body::StatusRequest(request), next))
}

#[tactic(auto, unfolding(format::specs::PacketOrder::decode_extended_status))]
fn read_extended_status(s: &[u8], c: Cursor) -> Step<ExtendedStatus>
    ensures { extended_status_meaning result ≡ decode_extended_status s.now c.at }
{
    let (first, after_first) = c.byte(s)?;
    let (second, after_second) = after_first.byte(s)?;
    let after_first_mark = after_second.fixed(s, FIRST_MARK)?;
    let after_marks = after_first_mark.fixed(s, SECOND_MARK)?;
    let (numbers, next) = read_triple(s, after_marks)?;
    let status = ExtendedStatus {
        first,
        second,
        numbers,
    };
    Ok((status, next))
}

// A body of 12 bytes is always plain; any other is read as the longer form.
#[tactic(auto, unfolding(format::specs::PacketOrder::decode_body))]
pub fn read_status(s: &[u8], c: Cursor) -> Step<Body>
    ensures meaning { body_meaning s.now result ≡ decode_body status_body s.now c.at }
    ensures placed { BodyStepPlaced s.now result }
{
    if c.remaining(s) == PLAIN_STATUS_SIZE {
        let (numbers, next) = read_triple(s, c)?;
        return Ok((Body::Status(numbers), next));
    }
    let (status, next) = read_extended_status(s, c)?;
    Ok((Body::ExtendedStatus(status), next))
}
