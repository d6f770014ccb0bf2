// The ledger: the tables of a rate zone. Only its calls write them.
use tables::Tables;

#[derive(Debug, Drop)]
pub struct Ledger<Z> {
    pub(crate) tables: Tables,
    pub(crate) zone: Z,
}
