//! Where a position stands in a layout.

ghost use Rattle.std.specs.Prelude.{◌≡◌, ◌<◌, length};
ghost use Rattle.tg_protocol.specs.Layouts.{chain_of};

use tg_base::{Chain, Pos, Projection};

/// The units that hold a position, head first. There is one at least.
#[tactic(auto, using(crate::proofs::Chains::some_unit), unfolding(tg_protocol::specs::Layouts::chain_of))]
pub fn units_at(proj: &Projection, pos: Pos) -> Chain
    ensures units { result ≡ chain_of proj.now pos }
    ensures some { 0 < length result }
{
    tg_proj::chain_of(proj, pos)
}
