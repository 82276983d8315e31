//! The order of transactions: no place of a transaction, nor its record, precedes the point of a reply that came before its begin.
//!
//! The replies before a begin are those of a world in which its client had begun fewer transactions. So the transaction's places are
//! new after that world (`tg_law_headline::laws_of_spans`), and don't precede the points of its replies (`tg_law_headline::laws_of_points`).

ghost use Rattle.tg_kind.specs.Of.{meaning_of};
ghost use Rattle.tg_law_headline.specs.Ordered.Orders.{HistoriesRise, OrderBySpareTrims, RecordsOrderBySpareTrims};

use tg_kind::Registry;

/// The stamps of a history rise.
pub fn histories_rise<K: Registry>()
    ensures { HistoriesRise (meaning_of K.Registry) }
{}

/// No place of a transaction precedes the point of a reply that came before its begin.
pub fn runs_are_in_order<K: Registry>()
    ensures { OrderBySpareTrims (meaning_of K.Registry) }
{}

/// Nor does its record, committed or not.
pub fn records_are_in_order<K: Registry>()
    ensures { RecordsOrderBySpareTrims (meaning_of K.Registry) }
{}
