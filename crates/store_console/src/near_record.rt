//! A body of which one byte is damaged that says nothing.

ghost use Rattle.std.specs.Prelude.{◌≡◌, ◌≤◌, ◌+◌, drop, replicate, take};
ghost use Rattle.job_model.specs.Records.{length_in};
ghost use Rattle.store_console.specs.Salvaged.{cleared, is_nearly_blank, readable, readable_number, record_bytes};

use disk_layout::Sector;
use job_model::Record;

/// The record of a body: what stands behind its bytes may be zeros, or zeros but for one byte.
#[tactic(auto, unfolding(crate::specs::Salvaged::readable))]
pub fn readable(body: &Sector) -> Option<Record>
    ensures { result ≡ readable body.now }
{
    let kept = record_bytes(body);
    if !is_nearly_blank(body, kept) {
        return None;
    }
    Record::from_sector(&cleared(body, kept))
}

/// The number of the body of a cell's slot, in the same way.
#[tactic(auto, unfolding(crate::specs::Salvaged::readable_number))]
pub fn readable_number(body: &Sector) -> Option<u64>
    ensures { result ≡ readable_number body.now }
{
    if !is_nearly_blank(body, 8) {
        return None;
    }
    Some(u64::from_be_bytes([
        body[0], body[1], body[2], body[3], body[4], body[5], body[6], body[7],
    ]))
}

/// How many bytes a record has, by its kind and by the length that it says of a payload.
fn record_bytes(body: &Sector) -> usize
    ensures { result ≡ record_bytes body.now }
{
    match body[0] {
        5 | 6 => 13 + length_in(body, 11),
        1 | 4 => 12 + length_in(body, 10),
        _ => 9,
    }
}

fn length_in(body: &Sector, at: usize) -> usize
    requires { at ≤ 11 }
    ensures { result ≡ length_in at body.now }
{
    u16::from_be_bytes([body[at], body[at + 1]]) as usize
}

/// Whether all bytes from there on are zero, or all but one.
fn is_nearly_blank(body: &Sector, from: usize) -> bool
    ensures { result ≡ is_nearly_blank (drop from body.now) }
{
    let mut others = 0usize;
    for at in from..512 {
        if body[at] != 0 {
            others += 1;
        }
    }
    others < 2
}

/// So many bytes of a sector, and zeros.
#[tactic(auto, unfolding(crate::specs::Salvaged::cleared))]
fn cleared(body: &Sector, kept: usize) -> Sector
    ensures { result ≡ cleared kept body.now }
{
    let mut sector = [0; 512];
    let kept = kept.min(512);
    sector[..kept].copy_from_slice(&body[..kept]);
    sector
}
