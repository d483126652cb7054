ghost use Rattle.std.specs.Prelude.{◌≡◌, ℕ, ◌+◌, ◌*◌, ◌≤◌, true, length, IfOk, Ok};
ghost use Rattle.packet.specs.Octets.{words};
ghost use Rattle.request.specs.Request.{or_else, out_of_range, ack_of, named_of, decode_of, request_of, name_of, few, few_asked, names_in, asked_in, meant_names, meant_asked, meant};

use crate::rejection::Rejection;
use crate::request::{Ack, Names, Request, Telecommand};
use crate::table::{Kind, kind_of};
use packet::Role;
use std::array;

/// The four octets by which reports name a request; missing ones are zero.
pub fn name_of(octets: &[u8]) -> [u8; 4]
    ensures { result ≡ name_of octets.now }
{
    array::from_fn(|place| octets.get(place).copied().unwrap_or(0))
}

fn ack_of(bits: u8) -> Ack
    ensures { result ≡ ack_of bits }
{
    Ack {
        acceptance: bits % 2 == 1,
        completion: bits / 8 % 2 == 1,
    }
}

// Refuses the first of the numbers, which stand from octet `at` on, that is out of range.
fn all_in_range(numbers: &[u8], least: u16, most: u16, at: u16) -> Result<(), Rejection>
    requires { at + length numbers.now ≤ 65535 }
    ensures { result ≡ or_else (out_of_range least most at (words numbers.now)) (Ok tt) }
{
    for (i, number) in numbers.as_chunks::<2>().0.iter().enumerate() {
        let value = u16::from_be_bytes(*number);
        if !(least..=most).contains(&value) {
            let octet = at + 2 * i as u16;
            return Err(Rejection::Field { octet, value });
        }
    }
    Ok(())
}

fn names<'a>(body: &'a [u8]) -> Result<Names<'a>, Rejection>
    requires { length body.now ≤ 236 }
    ensures value { meant_names result ≡ named_of body.now }
    ensures few { IfOk result (λ n. few (names_in n) ≡ true) }
{
    let wrong_length = Rejection::DataLength {
        octets: body.len() as u16,
    };
    let [n1, n2, numbers @ ..] = body else {
        return Err(wrong_length);
    };
    let (n1, n2) = (*n1 as usize, *n2 as usize);
    if numbers.len() != (n1 + n2) * 2 {
        return Err(wrong_length);
    }
    if n1 + n2 == 0 {
        return Err(Rejection::NothingNamed);
    }
    let (subschedules, apids) = numbers.split_at(n1 * 2);
    all_in_range(subschedules, 1, 4095, 12)?;
    all_in_range(apids, 0, 2047, 12 + n1 as u16 * 2)?;
    Ok(Names {
        subschedules,
        apids,
    })
}

fn decode<'a>(kind: Kind, body: &'a [u8]) -> Result<Request<'a>, Rejection>
    requires { length body.now ≤ 236 }
    ensures value { meant_asked result ≡ decode_of kind body.now }
    ensures few { IfOk result (λ q. few_asked (asked_in q) ≡ true) }
{
    match kind {
        Kind::Enable => Ok(Request::Enable(names(body)?)),
        Kind::Disable => Ok(Request::Disable(names(body)?)),
        Kind::Status => Ok(Request::Status(names(body)?)),
        Kind::ConnectionTest if body.is_empty() => Ok(Request::ConnectionTest),
        Kind::ConnectionTest => Err(Rejection::DataLength {
            octets: body.len() as u16,
        }),
    }
}

/// Reads any octets as a request, or says the first thing that is wrong: the
/// packet, its type, its subtype, the length of its data, a field out of range.
pub fn read_request<'a>(octets: &'a [u8]) -> Result<Telecommand<'a>, Rejection>
    ensures value { meant result ≡ request_of octets.now }
    ensures few { IfOk result (λ t. few_asked (asked_in t.request) ≡ true) }
{
    let packet = packet::read(octets, Role::Request)?;
    let kind = kind_of(packet.service, packet.subtype, packet.body.len() as u16)?;
    let request = decode(kind, packet.body)?;
    Ok(Telecommand {
        ack: ack_of(packet.ack),
        request,
    })
}
