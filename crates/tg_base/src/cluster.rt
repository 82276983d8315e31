//! What a header declares.

ghost use Rattle.std.specs.Prelude.{◌≡◌, IfOk};

use crate::chain::Chain;
use crate::fault::NoMemory;
use crate::ids::Oid;
use crate::list::List;
use std::marker::Model;

/// How many nodes of each role there are, and what a run begins with.
#[derive(Clone, Drop)]
pub struct Cluster {
    pub units: u16,
    pub layouts: u16,
    pub seqs: u16,
    pub clients: u16,
    /// How many positions the log may have.
    pub limit: u64,
    /// The stripes of the first layout's one range.
    pub chains: List<Chain>,
    /// The registered objects, without the directory.
    pub objects: List<Oid>,
}

impl Model for Cluster {
    ghost use Rattle.tg_base.specs.Clusters.{Header, IsHeader};

    ghost Value = { Header };

    ghost view = { λ h. record { units = h.units; layouts = h.layouts; seqs = h.seqs; clients = h.clients; limit = h.limit; chains = h.chains; objects = h.objects } };

    ghost inverse = { λ h. record { units = h.units; layouts = h.layouts; seqs = h.seqs; clients = h.clients; limit = h.limit; chains = h.chains; objects = h.objects } };

    ghost invariant = { λ h. IsHeader (record { units = h.units; layouts = h.layouts; seqs = h.seqs; clients = h.clients; limit = h.limit; chains = h.chains; objects = h.objects }) };
}

impl Cluster {
    ghost use Rattle.tg_base.specs.Clusters.{IsHeader};

    /// Every cluster keeps the rules.
    pub fn rules(&self)
        ensures { IsHeader self.now }
    {
        let _units = self.units;
    }

    /// An equal cluster.
    pub fn copy(&self) -> Result<Cluster, NoMemory>
        ensures { IfOk result (λ c. c ≡ self.now) }
    {
        Ok(self.clone()?)
    }
}
