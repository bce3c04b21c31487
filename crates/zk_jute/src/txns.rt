use std::marker::Model;
use zk_table::Txn;

/// Transactions as values, borrowed or owned.
#[derive(Debug, Drop)]
pub struct Txns<'a> {
    values: Values<'a>,
}

#[derive(Debug, Drop)]
enum Values<'a> {
    Borrowed(&'a [Txn]),
    Owned(Vec<Txn>),
}

/// Contracts see the list of the transactions.
impl<'a> Model for Txns<'a> {
    ghost use Rattle.std.specs.Prelude.{List};
    ghost use Rattle.zk_table.specs.declared.txn.Txn.{Txn};

    ghost Value = { List Txn };

    ghost use Rattle.zk_jute.specs.Values.{txns_of};

    ghost view = { λ txns. txns_of txns.values };
}

impl<'a> Txns<'a> {
    ghost use Rattle.std.specs.Prelude.{◌≡◌};

    pub(crate) fn borrowed(txns: &'a [Txn]) -> Txns<'a>
        ensures { result ≡ txns.now }
    {
        Txns {
            values: Values::Borrowed(txns),
        }
    }

    pub(crate) fn owned(txns: Vec<Txn>) -> Txns<'a>
        ensures { result ≡ txns.items }
    {
        Txns {
            values: Values::Owned(txns),
        }
    }

    pub fn as_slice(&self) -> &[Txn]
        ensures { result.now ≡ self.now }
    {
        match &self.values {
            Values::Borrowed(txns) => txns,
            Values::Owned(txns) => txns.as_slice(),
        }
    }
}
