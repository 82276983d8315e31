//! Printing scripts back.

ghost use Rattle.std.specs.Prelude.{◌≡◌, ◌≤◌, ◌++◌, [], ◌∷◌, true, false, length, IfOk, OnOk, MatchResult};
ghost use Rattle.tg_base.specs.Clusters.{Header, IsHeader};
ghost use Rattle.tg_base.specs.declared.fault.TextFault.TheVariants as fault;
ghost use Rattle.tg_any.specs.Words.{texts};
ghost use Rattle.tg_script.specs.Headers.{header_lines, OnOutside};
ghost use Rattle.tests_texts.specs.Texts.{IsEventLine, AreEventLines, AreScript, closed_lines, Prints};
ghost use Rattle.tests_texts.specs.declared.form.Form.TheVariants as form;

use crate::cut::{copies, header_and_events, pieces, whole_lines};
use std::alloc::Global;
use tg_base::{Cluster, List, NoMemory, TextFault};
use tg_script::{parse_header, parse_line, print_header, print_line};

/// The script that a text is, as it is printed.
///
/// # Errors
/// `Outside` names the first line, from 1, that may not follow the lines before it: where lines are missing the
/// one after the last.
pub fn script_again(alloc: Global, text: &[u8]) -> Result<List<u8>, TextFault>
    ensures { Prints form.Script text.now result }
{
    let pieces = pieces(alloc, text)?;
    lines_again(alloc, whole_lines(pieces.as_slice()))
}

// The script that these lines are.
fn lines_again(alloc: Global, lines: &[&[u8]]) -> Result<List<u8>, TextFault>
    ensures script { IfOk result (λ _. AreScript (texts lines.now)) }
    ensures printed { IfOk result (λ out. out ≡ closed_lines (texts lines.now)) }
    ensures outside { OnOutside result (λ _. AreScript (texts lines.now) → ⊥) }
{
    let (header, events) = header_and_events(lines);
    let cluster = cluster_of(alloc, header)?;
    let mut out = List::new(alloc);
    print_header(alloc, &cluster, &mut out)?;
    put_events(alloc, &cluster, events, &mut out)?;
    Ok(out)
}

// The cluster that the lines of a header declare.
fn cluster_of(alloc: Global, lines: &[&[u8]]) -> Result<Cluster, TextFault>
    requires { length lines.now ≤ 3 }
    ensures found { IfOk result (λ h. texts lines.now ≡ header_lines h) }
    ensures lawful { IfOk result IsHeader }
    ensures only { (h : Header) → IsHeader h → texts lines.now ≡ header_lines h → MatchResult result (λ c. c ≡ h) (λ e. e ≡ fault.NoMemory) }
{
    let lines = copies(alloc, lines)?;
    let cluster = parse_header(alloc, lines.as_slice())?;
    cluster.rules();
    Ok(cluster)
}

// Puts the lines below a header.
fn put_events(
    alloc: Global,
    cluster: &Cluster,
    lines: &[&[u8]],
    out: &mut List<u8>,
) -> Result<(), TextFault>
    ensures events { IfOk result (λ _. AreEventLines cluster.now (texts lines.now)) }
    ensures printed { OnOk result (out.new ≡ out.old ++ closed_lines (texts lines.now)) }
    ensures outside { OnOutside result (λ _. AreEventLines cluster.now (texts lines.now) → ⊥) }
{
    let mut number = 4;
    for line in lines {
        let found = put_event(alloc, cluster, line, out)?;
        if !found {
            return Err(TextFault::Outside { line: number });
        }
        number += 1;
    }
    Ok(())
}

// Puts a line, and tells whether it is one of an event.
fn put_event(
    alloc: Global,
    cluster: &Cluster,
    line: &[u8],
    out: &mut List<u8>,
) -> Result<bool, NoMemory>
    ensures event { IfOk result (λ found. found ≡ true → IsEventLine cluster.now line.now) }
    ensures none { IfOk result (λ found. found ≡ false → IsEventLine cluster.now line.now → ⊥) }
    ensures printed { IfOk result (λ found. found ≡ true → out.new ≡ out.old ++ (line.now ++ 10 ∷ [])) }
{
    let Some(value) = parse_line(alloc, cluster, line)? else {
        return Ok(false);
    };
    print_line(alloc, &value, out)?;
    Ok(true)
}
