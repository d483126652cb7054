ghost use Rattle.std.specs.Prelude.{◌≡◌, ◌≤◌};
ghost use Rattle.request.specs.Table.{find, has_type, kind_of};

use crate::rejection::Rejection;

/// The kinds of request.
#[derive(Clone, Copy)]
pub enum Kind {
    Enable,
    Disable,
    Status,
    ConnectionTest,
}

/// A row of the table: type, subtype, least number of data octets, and what it is.
#[derive(Clone, Copy)]
pub struct Row {
    pub service: u8,
    pub subtype: u8,
    pub least: u16,
    pub kind: Kind,
}

const TABLE: [Row; 4] = [
    Row {
        service: 11,
        subtype: 1,
        least: 2,
        kind: Kind::Enable,
    },
    Row {
        service: 11,
        subtype: 2,
        least: 2,
        kind: Kind::Disable,
    },
    Row {
        service: 11,
        subtype: 18,
        least: 2,
        kind: Kind::Status,
    },
    Row {
        service: 17,
        subtype: 1,
        least: 0,
        kind: Kind::ConnectionTest,
    },
];

fn find_row(rows: &[Row], service: u8, subtype: u8) -> Option<Row>
    ensures { result ≡ find service subtype rows.now }
{
    rows.iter()
        .copied()
        .find(|row| row.service == service && row.subtype == subtype)
}

fn has_type(rows: &[Row], service: u8) -> bool
    ensures { result ≡ has_type service rows.now }
{
    rows.iter().any(|row| row.service == service)
}

/// The kind of a request with `length` octets of data, or why there is none.
pub fn kind_of(service: u8, subtype: u8, length: u16) -> Result<Kind, Rejection>
    ensures { result ≡ kind_of service subtype length }
{
    match find_row(&TABLE, service, subtype) {
        Some(row) if length < row.least => Err(Rejection::DataLength { octets: length }),
        Some(row) => Ok(row.kind),
        None if has_type(&TABLE, service) => Err(Rejection::UnknownSubtype { service, subtype }),
        None => Err(Rejection::UnknownType { service, subtype }),
    }
}
