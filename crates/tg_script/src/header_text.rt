//! Printing of a header.

ghost use Rattle.std.specs.Prelude.{◌≡◌, ◌==◌, ◌++◌, [], ◌∷◌, codes, map, OnOk, OnErr};
ghost use Rattle.std.specs.List.{flat_map, slice_split};
ghost use Rattle.std.specs.Fmt.{decimal};
ghost use Rattle.tg_any.specs.Names.{object_word};
ghost use Rattle.tg_any.specs.Words.{joined};
ghost use Rattle.tg_script.specs.Nodes.{chains_word};
ghost use Rattle.tg_script.specs.Headers.{sizes_words, header_lines, lines_text};

use crate::put::put_joined;
use std::alloc::Global;
use tg_any::{put_number, put_object};
use tg_base::{Chain, Cluster, List, NoMemory, Oid};

/// Puts the three lines of a header last, each with its line feed. An `Err` is want of memory, and changes
/// nothing. Cut at its line feeds, the text gives the lines again.
pub fn print_header(alloc: Global, cluster: &Cluster, out: &mut List<u8>) -> Result<(), NoMemory>
    ensures ok { OnOk result (out.new ≡ out.old ++ lines_text (header_lines cluster.now)) }
    ensures err { OnErr result (out.new ≡ out.old) }
    ensures lines { slice_split (λ b. b == 10) (lines_text (header_lines cluster.now)) ≡ header_lines cluster.now ++ [] ∷ [] }
{
    feeds_end_lines(cluster);
    let mut text = List::new(alloc);
    put_header(cluster, &mut text)?;
    out.extend(text.as_slice())
}

// No line of a header has a line feed.
fn feeds_end_lines(cluster: &Cluster)
    ensures { slice_split (λ b. b == 10) (lines_text (header_lines cluster.now)) ≡ header_lines cluster.now ++ [] ∷ [] }
{
    cluster.rules();
}

fn put_header(cluster: &Cluster, out: &mut List<u8>) -> Result<(), NoMemory>
    ensures { OnOk result (out.new ≡ out.old ++ lines_text (header_lines cluster.now)) }
{
    put_sizes(
        u64::from(cluster.units),
        u64::from(cluster.layouts),
        u64::from(cluster.seqs),
        u64::from(cluster.clients),
        cluster.limit,
        out,
    )?;
    put_chains(cluster.chains.as_slice(), out)?;
    put_objects(cluster.objects.as_slice(), out)
}

// Puts a name with its spaces, and a number.
fn put_field(name: &[u8], number: u64, out: &mut List<u8>) -> Result<(), NoMemory>
    ensures { OnOk result (out.new ≡ out.old ++ (name.now ++ decimal number)) }
{
    out.extend(name)?;
    put_number(number, out)
}

fn put_sizes(
    units: u64,
    layouts: u64,
    seqs: u64,
    clients: u64,
    limit: u64,
    out: &mut List<u8>,
) -> Result<(), NoMemory>
    ensures { OnOk result (out.new ≡ out.old ++ (joined (sizes_words (record { units = units; layouts = layouts; seqs = seqs; clients = clients; limit = limit })) ++ 10 ∷ [])) }
{
    put_field(b"cluster units ", units, out)?;
    put_field(b" layouts ", layouts, out)?;
    put_field(b" seqs ", seqs, out)?;
    put_field(b" clients ", clients, out)?;
    put_field(b" limit ", limit, out)?;
    out.push(b'\n')
}

fn put_chains(chains: &[Chain], out: &mut List<u8>) -> Result<(), NoMemory>
    ensures { OnOk result (out.new ≡ out.old ++ (joined (codes "chains" ∷ chains_word chains.now ∷ []) ++ 10 ∷ [])) }
{
    out.extend(b"chains ")?;
    put_joined(b'/', chains, out)?;
    out.push(b'\n')
}

// Puts objects, each behind a space.
fn put_each(objects: &[Oid], out: &mut List<u8>) -> Result<(), NoMemory>
    ensures { OnOk result (out.new ≡ out.old ++ flat_map (λ o. 32 ∷ object_word o) objects.now) }
{
    for oid in objects {
        out.push(b' ')?;
        put_object(*oid, out)?;
    }
    Ok(())
}

fn put_objects(objects: &[Oid], out: &mut List<u8>) -> Result<(), NoMemory>
    ensures { OnOk result (out.new ≡ out.old ++ (joined (codes "objects" ∷ map object_word objects.now) ++ 10 ∷ [])) }
{
    out.extend(b"objects")?;
    put_each(objects, out)?;
    out.push(b'\n')
}
