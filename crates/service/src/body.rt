//! The bodies of reports.
ghost use Rattle.std.specs.Prelude.{◌≡◌, ◌+◌, ◌/◌, ◌≤◌, length};
ghost use Rattle.octets.specs.Octets.{seen};
ghost use Rattle.request.specs.Request.{names_in};
ghost use Rattle.status.specs.Status.{subschedules_on, apids_on};
ghost use Rattle.service.specs.Reports.{failure_body, status_body};

use octets::Octets;
use packet::Failure;
use request::request::Names;
use status::Status;

/// The body of a failure report.
pub(crate) fn failure_body(name: [u8; 4], failure: Failure) -> [u8; 10]
    ensures { result ≡ failure_body name failure }
{
    let [n0, n1, n2, n3] = name;
    let [c1, c0] = failure.code.to_be_bytes();
    let [a1, a0] = failure.a.to_be_bytes();
    let [b1, b0] = failure.b.to_be_bytes();
    [n0, n1, n2, n3, c1, c0, a1, a0, b1, b0]
}

/// The body of a status report.
pub(crate) fn status_body(status: &Status, names: Names) -> Octets<236>
    requires { length names.subschedules.now / 2 + length names.apids.now / 2 ≤ 117 }
    ensures { seen result ≡ status_body (subschedules_on status.now) (apids_on status.now) (names_in names.entry) }
{
    let n1 = names.subschedules.len() / 2;
    let n2 = names.apids.len() / 2;
    let middle = 2 + n1 * 2;
    let end = middle + n2 * 2;
    let mut out = [0; 236];
    out[0] = n1 as u8;
    out[1] = n2 as u8;
    status
        .subschedules
        .flag(names.subschedules, &mut out[2..middle]);
    status.apids.flag(names.apids, &mut out[middle..end]);
    Octets::new(&out[..end])
}
