//! The objects that a header registers.

ghost use Rattle.std.specs.Prelude.{◌≡◌, true, IfOk};
ghost use Rattle.tg_kind.specs.Headers.{is_header};

use std::marker::Model;
use tg_base::{Cluster, List, NoMemory, Oid};

/// The objects that a header registers: at most 256, each once, and without the directory.
pub struct HeaderObjects {
    list: List<Oid>,
}

// By hand, since a derived drop is proved anew wherever a value is dropped.
impl Drop for HeaderObjects {
    fn drop(self) {
        let HeaderObjects { list: _ } = self;
    }
}

impl Model for HeaderObjects {
    ghost use Rattle.std.specs.Prelude.{List, ◌≡◌, true};
    ghost use Rattle.tg_base.specs.declared.ids.Oid.{Oid};
    ghost use Rattle.tg_kind.specs.Headers.{is_header};

    ghost Value = { List Oid };

    ghost view = { λ o. o.list };

    ghost invariant = { λ o. is_header o.list ≡ true };
}

impl HeaderObjects {
    /// The objects of a header. An `Err` is want of memory.
    pub fn of(cluster: &Cluster) -> Result<HeaderObjects, NoMemory>
        ensures { IfOk result (λ o. o ≡ cluster.now.objects) }
    {
        cluster.rules();
        let list = copied(&cluster.objects)?;
        Ok(HeaderObjects { list })
    }

    /// The objects.
    pub fn as_slice(&self) -> &[Oid]
        ensures objects { result.now ≡ self.now }
        ensures rules { is_header self.now ≡ true }
    {
        self.list.as_slice()
    }
}

/// Equal objects.
fn copied(oids: &List<Oid>) -> Result<List<Oid>, NoMemory>
    ensures { IfOk result (λ c. c ≡ oids.now) }
{
    Ok(oids.clone()?)
}
