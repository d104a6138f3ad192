ghost use Rattle.std.specs.Prelude.{◌≡◌, ◌≢◌, ◌↔◌, ◌⊎◌, ℕ, IfSome, IsTrue, Some, get_or, option_map, string_bytes};
ghost use Rattle.file_disk.specs.Label.{mark_in, slots_in};
ghost use Rattle.file_disk.specs.declared.stride.Stride.TheVariants.{Packed, Spaced};
ghost use Rattle.command_line.specs.Label.{IsByLabel, IsOfVersion, are_one, is_marked, is_own, is_spelled, judged, label_of, mark_of};
ghost use Rattle.command_line.specs.LeaseLabel.{lease_label};

use crate::lease_label::machine_of;
use file_disk::{LABEL, MARK, Stride, is_of_a_node, mark_in, marked_label, slots_in};
use group_task::NodeId;
use sealed_msg::Key;

/// The version of the format of files that are made here; version 1 is read, too.
const VERSION: u8 = 2;

const OLDER: u8 = 1;

/// The mark of a cluster that isn't said.
const NO_MARK: [u8; MARK] = [0; MARK];

/// Whose a file is, by its label.
#[derive(Clone, Copy, Debug, PartialEq, Eq)]
pub enum LabelOwner {
    /// It is no node's: it wasn't formatted to its end, or its end was cut off.
    Nobody,
    /// It is a node's, in a format of this version, which isn't read here.
    Unread(u8),
    /// It is that of a node of so many, and its label says no more.
    Node {
        id: u8,
        nodes: u8,
    },
    /// It is that of a node of so many, made with so many slots in the cluster of this mark.
    Marked {
        id: u8,
        nodes: u8,
        slots: u16,
        mark: [u8; MARK],
    },
    /// It was made with so many slots, and has another length than a file of so many.
    OtherLength {
        slots: u16,
    },
    /// It is that of a node of so many in another cluster.
    OtherCluster {
        id: u8,
        nodes: u8,
    },
    /// It has the leases of this machine.
    Leases {
        machine: u8,
    },
    /// It has no leases, and isn't a node's: it wasn't formatted to its end, or its end was cut off.
    NoLeases,
}

/// The mark of the cluster of this name; zeros where none is said.
pub(crate) fn mark_of(cluster: &Option<String>) -> [u8; MARK]
    ensures { result ≡ mark_of (option_map string_bytes cluster.now) }
{
    match cluster {
        Some(name) => {
            let tag = Key::new(name.as_bytes()).tag(b"dumgerok cluster 2");
            [tag[0], tag[1], tag[2], tag[3]]
        }
        None => NO_MARK,
    }
}

/// Whether two marks are of one cluster, as far as both say which.
fn are_one(a: [u8; MARK], b: [u8; MARK]) -> bool
    ensures { result ≡ are_one a b }
{
    a == b || a == NO_MARK || b == NO_MARK
}

fn spelled(id: u8, nodes: u8, stride: Stride) -> [u8; LABEL]
    ensures { result ≡ label_of id nodes stride }
{
    let apart = stride.byte();
    [
        b'd', b'u', b'm', b'g', b'e', b'r', b'o', b'k', OLDER, id, nodes, apart, 0, 0, 0, 0, 0, 0,
        0, 0, 0, 0, 0, 0, 0, 0, 0, 0, 0, 0, 0, 0,
    ]
}

/// Whether a file of so many sectors with this label, or with none, is that node's, with sectors so far apart, in the cluster of this mark.
pub(crate) fn is_own(
    label: Option<[u8; LABEL]>,
    id: NodeId,
    nodes: u8,
    stride: Stride,
    sectors: u64,
    mark: [u8; MARK],
) -> bool
    // Promise: A file is a node's where its label says so: one of version 2 says, too, how many slots the file has, and its cluster.
    // Also: judged, mark_of.
    // Refuses: file_of_another_node_served, another_clusters_file_taken, shortened_file_taken.
    ensures { result ≡ is_own label id nodes stride sectors mark }
{
    let Some(label) = label else {
        return false;
    };
    let (id, its, slots) = (id.number(), mark_in(label), slots_in(label));
    label == spelled(id, nodes, stride)
        || label == marked_label(id, nodes, stride, its, slots)
            && sectors == 8 + 4 * u64::from(slots)
            && are_one(its, mark)
}

/// Whether this is a label of version 1 of that node, however far apart the sectors lie.
fn is_label(label: [u8; LABEL], id: u8, nodes: u8) -> bool
    ensures { IsTrue result ↔ ((label ≡ label_of id nodes Packed) ⊎ (label ≡ label_of id nodes Spaced)) }
{
    if label == spelled(id, nodes, Stride::Packed) {
        return true;
    }
    label == spelled(id, nodes, Stride::Spaced)
}

/// Whether this is a label of version 2: one that lost its end says no slots.
fn is_marked(label: [u8; LABEL]) -> bool
    ensures { result ≡ is_marked label }
{
    slots_in(label) != 0 && is_spelled(label)
}

/// Whether a label is spelled as one of version 2, however far apart the sectors lie.
fn is_spelled(label: [u8; LABEL]) -> bool
    ensures { result ≡ is_spelled label }
{
    let (id, nodes, mark, slots) = (label[9], label[10], mark_in(label), slots_in(label));
    label == marked_label(id, nodes, Stride::Packed, mark, slots)
        || label == marked_label(id, nodes, Stride::Spaced, mark, slots)
}

/// Whose a file with this label is, or one with none.
pub fn owner_of(label: Option<[u8; LABEL]>) -> LabelOwner
    ensures node { (id nodes : ℕ) → (result ≡ LabelOwner.Node id nodes) ↔ ((label ≡ Some (label_of id nodes Packed)) ⊎ (label ≡ Some (label_of id nodes Spaced))) }
    ensures marked { IfSome label (λ l. (result ≡ LabelOwner.Marked (get_or l 9 0) (get_or l 10 0) (slots_in l) (mark_in l)) ↔ IsTrue (is_marked l)) }
    // Promise: A file of leases is told from a node's.
    // Refuses: leases_are_nobodys.
    ensures leases { (machine : ℕ) → (result ≡ LabelOwner.Leases machine) ↔ (label ≡ Some (lease_label machine)) }
    ensures unread { (version : ℕ) → (result ≡ LabelOwner.Unread version) ↔ (version ≢ 1) × (version ≢ 2) × IsOfVersion label version }
    ensures by_label { IsByLabel result }
{
    let Some(bytes) = label else {
        return LabelOwner::Nobody;
    };
    let (version, id, nodes) = (bytes[8], bytes[9], bytes[10]);
    if is_label(bytes, id, nodes) {
        LabelOwner::Node { id, nodes }
    } else if is_marked(bytes) {
        let (slots, mark) = (slots_in(bytes), mark_in(bytes));
        LabelOwner::Marked {
            id,
            nodes,
            slots,
            mark,
        }
    } else if version != VERSION && version != OLDER && is_of_a_node(label) {
        LabelOwner::Unread(version)
    } else if let Some(machine) = machine_of(label) {
        LabelOwner::Leases { machine }
    } else {
        LabelOwner::Nobody
    }
}

/// Whose a file of so many sectors is that isn't a node's own, to a node of the cluster of this mark.
pub(crate) fn judged(owner: LabelOwner, sectors: u64, mark: [u8; MARK]) -> LabelOwner
    ensures { result ≡ judged owner sectors mark }
{
    let LabelOwner::Marked {
        id,
        nodes,
        slots,
        mark: its,
    } = owner
    else {
        return owner;
    };
    if sectors != 8 + 4 * u64::from(slots) {
        LabelOwner::OtherLength { slots }
    } else if are_one(its, mark) {
        owner
    } else {
        LabelOwner::OtherCluster { id, nodes }
    }
}
