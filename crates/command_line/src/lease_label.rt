// The label of a file of leases.
ghost use Rattle.std.specs.Prelude.{◌≡◌, ◌↔◌, ℕ, Some};
ghost use Rattle.command_line.specs.LeaseLabel.{lease_label};

use file_disk::LABEL;
use group_task::NodeId;

/// The version of the format of files that are made and read here.
const VERSION: u8 = 1;

/// What stands behind the last sector of the file of leases of a machine. It is written last, so a file that wasn't formatted to its end has
/// none.
pub(crate) fn lease_label(machine: NodeId) -> [u8; LABEL]
    ensures { result ≡ lease_label machine }
{
    spelled(machine.number())
}

fn spelled(machine: u8) -> [u8; LABEL]
    ensures { result ≡ lease_label machine }
{
    [
        b'd', b'u', b'm', b'l', b'e', b'a', b's', b'e', VERSION, machine, 0, 0, 0, 0, 0, 0, 0, 0,
        0, 0, 0, 0, 0, 0, 0, 0, 0, 0, 0, 0, 0, 0,
    ]
}

/// Of which machine's leases a file with this label, or with none, is.
pub(crate) fn machine_of(label: Option<[u8; LABEL]>) -> Option<u8>
    // Promise: A file is one of the leases of a machine where its label says so.
    // Refuses: another_machines_file_taken.
    ensures { (machine : ℕ) → (result ≡ Some machine) ↔ (label ≡ Some (lease_label machine)) }
{
    let bytes = label?;
    let machine = bytes[9];
    if bytes == spelled(machine) {
        Some(machine)
    } else {
        None
    }
}
