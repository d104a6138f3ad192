// The keys of a node's messages, as a file has them.
ghost use Rattle.std.specs.Prelude.{◌≡◌, ◌↔◌, IfOk, IfSome, IsTrue, None, Ok, option_map};
ghost use Rattle.line_words.specs.Lines.{lines_of};
ghost use Rattle.sealed_msg.specs.Cluster.{cluster_key};
ghost use Rattle.command_line.specs.Keys.{IsPrivate, first_and, one_of, pair_of, secret_in, secrets_of, two_of};
ghost use Rattle.lease_session.specs.Key.{lease_key};
ghost use Rattle.command_line.specs.LeaseServed.{IsLeaseSealBy, IsLeaseSealOf};
ghost use Rattle.command_line.specs.Served.{AreSpelled, IsSealBy, seals_by};

use lease_session::{LeaseSeal, lease_key};
use line_words::{bytes, cut_line};
use node_session::Seal;
use sealed_msg::{Key, cluster_key};
use std::alloc::{AllocError, Global};
use std::fs::{File, Files, Metadata};
use std::io;
use std::io::Read;
use std::os::unix::fs::PermissionsExt;

/// How many bytes a secret has.
const SECRET: usize = 32;

/// A file of two secrets has fewer bytes.
const MOST: usize = 256;

/// Where a node's keys stand, the name of its cluster, and the life of its process, which is empty where it has none.
#[derive(Clone, Copy)]
pub struct Keys<'a> {
    /// A file of one line of 64 hex digits, or of two. Nobody but its owner may read it.
    pub path: &'a str,
    pub cluster: &'a str,
    pub life: &'a [u8],
}

/// The secret whose key seals and opens, and one whose key only opens.
#[derive(Drop)]
struct Secrets {
    own: Vec<u8>,
    other: Option<Vec<u8>>,
}

/// What seals and opens the messages of a node of so many. None where the file isn't one of keys, or others may read it.
pub(crate) fn read_seal(
    rt: &impl Files<File = File>,
    alloc: Global,
    keys: Keys<'_>,
    nodes: u8,
) -> io::Result<Option<Seal>>
    ensures { IfOk result (λ seal. IfSome seal (λ seals. IsSealBy nodes keys.entry.cluster.now keys.entry.life.now seals)) }
{
    let Some(secrets) = read_secrets(rt, alloc, keys.path)? else {
        return Ok(None);
    };
    Ok(Some(seal_by(alloc, &secrets, nodes, keys.cluster.as_bytes(), keys.life)?))
}

/// What seals and opens the messages of a node of so many, in the cluster of this name, by these secrets, in a process of this life.
#[tactic(auto, unfolding(crate::specs::Served::seals_by, crate::specs::Keys::pair_of, crate::specs::Keys::items_of))]
fn seal_by(
    alloc: Global,
    secrets: &Secrets,
    nodes: u8,
    cluster: &[u8],
    life: &[u8],
) -> Result<Seal, AllocError>
    // Promise: Under keys a node seals by the first secret of its file and opens by either, each bound to the cluster's name and the number of its nodes;
    // where its process has a life, it opens only what is sealed for that.
    // Refuses: name_of_the_cluster_not_bound, life_of_the_command_line_ignored.
    ensures { IfOk result (λ seals. seals ≡ seals_by (pair_of secrets.now) nodes cluster.now life.now) }
{
    let own = cluster_key(alloc, &secrets.own, nodes, cluster)?;
    let other = other_key(alloc, &secrets.other, nodes, cluster)?;
    Ok(Seal::new(alloc, own, other, life)?)
}

fn other_key(
    alloc: Global,
    other: &Option<Vec<u8>>,
    nodes: u8,
    cluster: &[u8],
) -> Result<Option<Key>, AllocError>
    ensures { IfOk result (λ key. key ≡ option_map (λ other. cluster_key other.items nodes cluster.now) other.now) }
{
    match other {
        Some(other) => Ok(Some(cluster_key(alloc, other, nodes, cluster)?)),
        None => Ok(None),
    }
}

/// What seals and opens the messages of leases of a machine of so many, likewise.
pub(crate) fn read_lease_seal(
    rt: &impl Files<File = File>,
    alloc: Global,
    keys: Keys<'_>,
    machines: u8,
) -> io::Result<Option<LeaseSeal>>
    ensures { IfOk result (λ seal. IfSome seal (IsLeaseSealBy machines keys.entry.cluster.now)) }
{
    let Some(secrets) = read_secrets(rt, alloc, keys.path)? else {
        return Ok(None);
    };
    Ok(Some(lease_seal_by(alloc, &secrets, machines, keys.cluster.as_bytes())?))
}

/// What seals and opens the messages of leases of so many machines, in the cluster of this name, by these secrets.
fn lease_seal_by(
    alloc: Global,
    secrets: &Secrets,
    machines: u8,
    cluster: &[u8],
) -> Result<LeaseSeal, AllocError>
    // Promise: Under keys a process of leases seals by the first secret of its file and opens by either, each bound to the cluster's name and the number of its
    // machines.
    // Refuses: leases_of_any_cluster_opened.
    ensures { IfOk result (IsLeaseSealOf (pair_of secrets.now) machines cluster.now) }
{
    let own = lease_key(alloc, &secrets.own, machines, cluster)?;
    let other = other_lease_key(alloc, &secrets.other, machines, cluster)?;
    Ok(LeaseSeal::new(own, other))
}

fn other_lease_key(
    alloc: Global,
    other: &Option<Vec<u8>>,
    machines: u8,
    cluster: &[u8],
) -> Result<Option<Key>, AllocError>
    ensures { IfOk result (λ key. key ≡ option_map (λ other. lease_key other.items machines cluster.now) other.now) }
{
    match other {
        Some(other) => Ok(Some(lease_key(alloc, other, machines, cluster)?)),
        None => Ok(None),
    }
}

/// The secrets of the file of this path. None where it isn't one of keys, or others may read it.
fn read_secrets(
    rt: &impl Files<File = File>,
    alloc: Global,
    path: &str,
) -> io::Result<Option<Secrets>>
    ensures { IfOk result (λ secrets. IfSome secrets (λ them. AreSpelled (pair_of them))) }
{
    let mut file = File::open(rt, path)?;
    let about = file.metadata()?;
    secrets_of(alloc, &about, &mut file)
}

/// The secrets of a file of which this is known. None where it isn't one of keys, or others may read it.
fn secrets_of(alloc: Global, about: &Metadata, file: &mut File) -> io::Result<Option<Secrets>>
    // Promise: The secrets of a key file are taken where it is a regular one that is open to nobody but its owner, and no others.
    // Also: open, is_private.
    // Refuses: key_file_open_to_the_group, key_of_a_pipe_taken.
    ensures private { IfOk result (λ secrets. IfSome secrets (λ them. IsPrivate about.now)) }
    ensures open { (IsPrivate about.now → ⊥) → result ≡ Ok None }
    ensures spelled { IfOk result (λ secrets. IfSome secrets (λ them. AreSpelled (pair_of them))) }
{
    if !is_private(about) {
        return Ok(None);
    }
    let text = read_text(alloc, file)?;
    Ok(secrets_in(alloc, &text)?)
}

/// Whether it is a regular file that is open to nobody but its owner.
fn is_private(about: &Metadata) -> bool
    ensures { IsTrue result ↔ IsPrivate about.now }
{
    about.is_file() && about.permissions().mode() & 0o077 == 0
}

/// Reads a file that may be one of keys; of a longer one no more than tells that.
fn read_text(alloc: Global, file: &mut File) -> io::Result<Vec<u8>> {
    let mut text = Vec::new(alloc);
    let mut piece = [0u8; MOST];
    for _read in 0..MOST {
        let count = file.read(&mut piece)?;
        if count == 0 || text.len() >= MOST {
            break;
        }
        text.extend_from_slice(&piece[..count])?;
    }
    Ok(text)
}

/// The secrets that a text spells.
fn secrets_in(alloc: Global, text: &[u8]) -> Result<Option<Secrets>, AllocError>
    // Promise: A key file has one or two secrets of 64 hex digits, a line each, and nothing else.
    // Refuses: key_of_another_length.
    ensures { IfOk result (λ secrets. option_map pair_of secrets ≡ secrets_of (lines_of text.now)) }
{
    let Some((first, behind)) = cut_line(text) else {
        return one(alloc, text);
    };
    let Some((second, rest)) = cut_line(behind) else {
        return first_and(alloc, first, behind);
    };
    match rest {
        [] => two(alloc, first, second),
        _ => Ok(None),
    }
}

/// What stands behind the first line feed is nothing, or a second secret.
fn first_and(alloc: Global, first: &[u8], behind: &[u8]) -> Result<Option<Secrets>, AllocError>
    ensures { IfOk result (λ secrets. option_map pair_of secrets ≡ first_and first.now behind.now) }
{
    match behind {
        [] => one(alloc, first),
        _ => two(alloc, first, behind),
    }
}

fn one(alloc: Global, first: &[u8]) -> Result<Option<Secrets>, AllocError>
    ensures { IfOk result (λ secrets. option_map pair_of secrets ≡ one_of (secret_in first.now)) }
{
    match secret(alloc, first)? {
        Some(own) => Ok(Some(Secrets { own, other: None })),
        None => Ok(None),
    }
}

fn two(alloc: Global, first: &[u8], second: &[u8]) -> Result<Option<Secrets>, AllocError>
    ensures { IfOk result (λ secrets. option_map pair_of secrets ≡ two_of (secret_in first.now) (secret_in second.now)) }
{
    match (secret(alloc, first)?, secret(alloc, second)?) {
        (Some(own), Some(other)) => Ok(Some(Secrets {
            own,
            other: Some(other),
        })),
        _ => Ok(None),
    }
}

/// The secret that a line spells.
fn secret(alloc: Global, line: &[u8]) -> Result<Option<Vec<u8>>, AllocError>
    ensures { IfOk result (λ secret. option_map (λ secret. secret.items) secret ≡ secret_in line.now) }
{
    match bytes(alloc, line)? {
        Some(bytes) if bytes.len() == SECRET => Ok(Some(bytes)),
        _ => Ok(None),
    }
}
