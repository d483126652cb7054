//! What C programs may call: the check field, and the request check alone.

#![tactic(auto)]

ghost use Rattle.std.specs.Prelude.{◌≡◌};
ghost use Rattle.check_field.specs.CheckField.{check_field};
ghost use Rattle.request.specs.Request.{request_of};
ghost use Rattle.exports.specs.Exports.{check_of};

use packet::Failure;
use request::read::read_request;

/// The code of a request that passes; no failure has it.
// A number and no `Option`: C reads a number.
pub const PASSED: u16 = 65535;

/// What the request check answers: a failure's code with its A and B, or
/// `PASSED` with zeros. A `Failure` in the layout that C reads.
#[repr(C)]
#[derive(Clone, Copy)]
pub struct RequestCheck {
    pub code: u16,
    pub a: u16,
    pub b: u16,
}

/// The check field of any octets.
#[unsafe(no_mangle)]
pub extern "C" fn melonskeg_check_field(octets: &[u8]) -> u16
    ensures { result ≡ check_field octets.now }
{
    check_field::check_field(octets)
}

/// Asks of any octets everything that is asked of a request, except whether the
/// report area has room: a caller of this has no area.
#[unsafe(no_mangle)]
pub extern "C" fn melonskeg_request_check(octets: &[u8]) -> RequestCheck
    ensures { result ≡ check_of (request_of octets.now) }
{
    let Failure { code, a, b } = match read_request(octets) {
        Ok(_) => Failure {
            code: PASSED,
            a: 0,
            b: 0,
        },
        Err(rejection) => Failure::from(rejection),
    };
    RequestCheck { code, a, b }
}
