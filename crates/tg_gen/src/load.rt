//! The script of a made load.

ghost use Rattle.std.specs.Prelude.{◌≡◌, ◌<◌, ◌++◌, [], ◌∷◌, IfOk, OnOk};
ghost use Rattle.tg_script.specs.declared.line.Line.TheVariants as line;
ghost use Rattle.tg_gen.specs.declared.round.Target.TheVariants as target;
ghost use Rattle.tg_gen.specs.Loads.{oids, host, other, reconf, middle_lines, turn_lines, rounds, hosts, hosting, header, header_text, text, load_text};

use crate::lines::{RIVAL, put_given, put_host, put_round, put_settle};
use crate::numbers::Numbers;
use crate::round::{Round, Target};
use std::alloc::Global;
use tg_base::{Chain, Change, Cluster, List, NoMemory, Oid};
use tg_model::Command;
use tg_script::print_header;

/// The script that a start and a count of rounds give, the same for the same numbers: four clients, of which
/// three take turns, and in the middle the next layout. An `Err` is want of memory.
pub fn script(alloc: Global, start: u64, count: u32) -> Result<List<u8>, NoMemory>
    ensures { IfOk result (λ bytes. bytes ≡ load_text start count) }
{
    let mut out = List::new(alloc);
    put_header(alloc, &mut out)?;
    put_hosting(alloc, &mut out)?;
    put_rounds(alloc, start, count, &mut out)?;
    Ok(out)
}

// The stripes of the first layout.
fn chains(alloc: Global) -> Result<List<Chain>, NoMemory>
    ensures { IfOk result (λ cs. cs ≡ (0 ∷ 1 ∷ []) ∷ []) }
{
    let mut chains = List::new(alloc);
    chains.push(Chain::of(&[0, 1]).unwrap())?;
    Ok(chains)
}

const OBJECTS: [Oid; 6] = [
    Oid(0x100_0000),
    Oid(0x200_0000),
    Oid(0x300_0000),
    Oid(0x400_0000),
    Oid(0x500_0000),
    Oid(0x600_0000),
];

fn objects(alloc: Global) -> Result<List<Oid>, NoMemory>
    ensures { IfOk result (λ os. os ≡ oids) }
{
    let mut objects = List::new(alloc);
    objects.extend(&OBJECTS)?;
    Ok(objects)
}

// What is declared.
#[tactic(auto, unfolding(crate::specs::Loads::header))]
fn cluster(alloc: Global) -> Result<Cluster, NoMemory>
    ensures { IfOk result (λ c. c ≡ header) }
{
    let chains = chains(alloc)?;
    let objects = objects(alloc)?;
    Ok(Cluster {
        units: 2,
        layouts: 1,
        seqs: 2,
        clients: 4,
        limit: 100_000,
        chains,
        objects,
    })
}

#[tactic(auto, unfolding(crate::specs::Loads::header_text))]
fn put_header(alloc: Global, out: &mut List<u8>) -> Result<(), NoMemory>
    ensures { OnOk result (out.new ≡ out.old ++ header_text) }
{
    let cluster = cluster(alloc)?;
    print_header(alloc, &cluster, out)
}

// Puts the lines in which a client hosts three targets.
fn put_three(
    alloc: Global,
    client: u16,
    one: Target,
    two: Target,
    three: Target,
    out: &mut List<u8>,
) -> Result<(), NoMemory>
    ensures { OnOk result (out.new ≡ out.old ++ text (host client one ∷ host client two ∷ host client three ∷ [])) }
{
    put_host(alloc, client, one, out)?;
    put_host(alloc, client, two, out)?;
    put_host(alloc, client, three, out)
}

// Puts the lines in which a client hosts each target.
fn put_hosts(alloc: Global, client: u16, out: &mut List<u8>) -> Result<(), NoMemory>
    ensures { OnOk result (out.new ≡ out.old ++ text (hosts client)) }
{
    put_three(
        alloc,
        client,
        Target::Counter,
        Target::Register,
        Target::Map,
        out,
    )?;
    put_three(alloc, client, Target::List, Target::Tree, Target::Set, out)
}

fn put_hosting(alloc: Global, out: &mut List<u8>) -> Result<(), NoMemory>
    ensures { OnOk result (out.new ≡ out.old ++ text hosting) }
{
    put_hosts(alloc, 0, out)?;
    put_hosts(alloc, 1, out)?;
    put_last_hosts(alloc, out)
}

// Puts the lines in which the last two clients host targets.
fn put_last_hosts(alloc: Global, out: &mut List<u8>) -> Result<(), NoMemory>
    ensures { OnOk result (out.new ≡ out.old ++ text (hosts 2 ++ host other target.Counter ∷ [])) }
{
    put_hosts(alloc, 2, out)?;
    put_host(alloc, RIVAL, Target::Counter, out)
}

// The next layout has the second sequencer, and the first unit alone.
fn change(alloc: Global) -> Result<Change, NoMemory>
    ensures { IfOk result (λ c. c ≡ record { seq = 1; drop = 1 ∷ []; opened = []; join = None }) }
{
    let mut drop = List::new(alloc);
    drop.push(1)?;
    Ok(Change {
        seq: 1,
        drop,
        opened: List::new(alloc),
        join: None,
    })
}

// Puts the reconfiguration.
fn put_reconf(alloc: Global, out: &mut List<u8>) -> Result<(), NoMemory>
    ensures { OnOk result (out.new ≡ out.old ++ text (reconf ∷ line.Settle ∷ [])) }
{
    let change = change(alloc)?;
    put_given(alloc, 0, Command::Reconf { change }, out)?;
    put_settle(alloc, out)
}

// Puts what stands before a round.
fn put_middle(alloc: Global, count: u32, i: u32, out: &mut List<u8>) -> Result<(), NoMemory>
    ensures { OnOk result (out.new ≡ out.old ++ text (middle_lines count i)) }
{
    if i == count / 2 {
        put_reconf(alloc, out)?;
    }
    Ok(())
}

// Puts a round, and what stands before it.
fn put_turn(
    alloc: Global,
    count: u32,
    i: u32,
    round: Round,
    out: &mut List<u8>,
) -> Result<(), NoMemory>
    requires { round.value < 8 }
    ensures { OnOk result (out.new ≡ out.old ++ text (turn_lines count i round)) }
{
    put_middle(alloc, count, i, out)?;
    put_round(alloc, (i % 3) as u16, round, out)
}

fn put_rounds(alloc: Global, start: u64, count: u32, out: &mut List<u8>) -> Result<(), NoMemory>
    ensures { OnOk result (out.new ≡ out.old ++ text (rounds start count count)) }
{
    let mut numbers = Numbers::new(start);
    for i in 0..count {
        let round = Round::draw(&mut numbers);
        put_turn(alloc, count, i, round, out)?;
    }
    Ok(())
}
