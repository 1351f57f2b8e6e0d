//! The rows of the linear system of limits, inserted in their order until there are as many pivots
//! as columns.
ghost use Rattle.std.specs.Prelude.{◌≡◌, ◌<◌, ◌≤◌, ◌+◌, ◌↔◌, ◌∷◌, ◌++◌, ◌^◌, List, length, All, IfOk};
ghost use Rattle.std.specs.Prelude.{OnOk, IsErrOf, IsTrue};
ghost use Rattle.gj_limit_faces.specs.TightLimits.{AreTightLimitsOf};
ghost use Rattle.gj_limit_system.specs.LimitRows.{IsLimitRowBelow, limit_rows};
ghost use Rattle.gj_limit_system.specs.declared.limit_row.LimitRow.{LimitRow};
ghost use Rattle.gj_shape.specs.Elimination.{Passes};
ghost use Rattle.gj_shape.specs.FunctionData.{FunctionData, IsWithinBounds};
ghost use Rattle.gj_limit_extreme.specs.Decision.{limit_elimination};
ghost use Rattle.gj_limit_extreme.specs.RowsToCome.{AreToCome, AreInserted, HaveColumns};
ghost use Rattle.gj_limit_extreme.specs.SystemRows.{columns_in, IsSystemOf};

use gj_elim::{ElimFault, Inserted};
use gj_limit_faces::TightLimits;
use gj_limit_system::{LimitRow, LimitRows, push_tight_rows};
use gj_shape::Shape;
use gj_sparse_elim::{Entry, SparseBasis};
use std::alloc::{AllocError, Global};

/// Rows that are inserted, with the names of those that are kept.
#[derive(Drop)]
pub(crate) struct Rows {
    pub(crate) columns: u32,
    pub(crate) basis: SparseBasis,
    pub(crate) names: Vec<LimitRow>,
    /// The entries of the row that is being inserted.
    pub(crate) row: Vec<Entry>,
}

/// The rows of the system, inserted in their order until there are as many pivots as columns.
pub(crate) fn rows_of(
    alloc: Global,
    shape: &Shape,
    limits: &TightLimits,
    system: &LimitRows,
) -> Result<Rows, ElimFault>
    requires limits { AreTightLimitsOf shape.now limits.now }
    requires system { IsSystemOf shape.now system.now }
    ensures limits { IsWithinBounds shape.now }
    ensures rows { IfOk result (AreInserted shape.now system.now.component
        (columns_in system.now)) }
    ensures wide { IsErrOf result ElimFault.Wide → Passes (limit_elimination shape.now
        system.now.component (columns_in system.now)).marked }
{
    let order = shape.order();
    let mut rows = Rows::new(alloc, system)?;
    rows.insert(system, LimitRow::F)?;
    let mut names = Vec::new(alloc);
    for a in 0..order {
        if rows.is_full() {
            return Ok(rows);
        }
        names.clear();
        push_tight_rows(alloc, shape, limits, a, &mut names)?;
        rows.insert_all(system, names.as_slice())?;
    }
    Ok(rows)
}

impl Rows {
    /// No rows, of which all are still to come.
    fn new(alloc: Global, system: &LimitRows) -> Result<Rows, AllocError>
        ensures to_come { IfOk result (λ rows. (f : FunctionData) → IsSystemOf f system.now →
            AreToCome f system.now.component (columns_in system.now) rows (limit_rows f)) }
        ensures columns { IfOk result (HaveColumns (columns_in system.now)) }
        ensures none { IfOk result (λ rows. rows.basis.inserted ≡ 0) }
    {
        let columns = system.columns();
        Ok(Rows {
            columns,
            basis: SparseBasis::new(alloc, columns)?,
            names: Vec::new(alloc),
            row: Vec::new(alloc),
        })
    }

    /// Whether there are as many pivots as columns.
    pub(crate) fn is_full(&self) -> bool
        ensures { IsTrue result ↔ (self.now.columns ≤ length self.now.basis.kept) }
    {
        self.columns <= self.basis.rank()
    }

    /// Inserts the rows with these names in turn, until there are as many pivots as columns.
    fn insert_all(&mut self, system: &LimitRows, names: &[LimitRow]) -> Result<(), ElimFault>
        requires names { All (λ name. IsLimitRowBelow name (length system.now.component)) names.now }
        requires columns { HaveColumns (columns_in system.now) self.old }
        requires count { self.old.basis.inserted + length names.now < 2 ^ 32 }
        ensures to_come { OnOk result ((f : FunctionData) (rest : List LimitRow) →
            IsSystemOf f system.now →
            AreToCome f system.now.component (columns_in system.now) self.old (names.now ++ rest) →
            AreToCome f system.now.component (columns_in system.now) self.new rest) }
        ensures columns { HaveColumns (columns_in system.now) self.new }
        ensures count { self.new.basis.inserted ≤ self.old.basis.inserted + length names.now }
        ensures wide { IsErrOf result ElimFault.Wide → (f : FunctionData) (rest : List LimitRow) →
            IsSystemOf f system.now →
            AreToCome f system.now.component (columns_in system.now) self.old (names.now ++ rest) →
            Passes (limit_elimination f system.now.component (columns_in system.now)).marked }
    {
        for name in names {
            self.insert(system, *name)?;
        }
        Ok(())
    }

    /// Inserts the row with this name, if there are not yet as many pivots as columns.
    fn insert(&mut self, system: &LimitRows, name: LimitRow) -> Result<(), ElimFault>
        requires name { IsLimitRowBelow name (length system.now.component) }
        requires columns { HaveColumns (columns_in system.now) self.old }
        requires count { self.old.basis.inserted < 2 ^ 32 }
        ensures to_come { OnOk result ((f : FunctionData) (rest : List LimitRow) →
            IsSystemOf f system.now →
            AreToCome f system.now.component (columns_in system.now) self.old (name ∷ rest) →
            AreToCome f system.now.component (columns_in system.now) self.new rest) }
        ensures columns { HaveColumns (columns_in system.now) self.new }
        ensures count { self.new.basis.inserted ≤ self.old.basis.inserted + 1 }
        ensures wide { IsErrOf result ElimFault.Wide → (f : FunctionData) (rest : List LimitRow) →
            IsSystemOf f system.now →
            AreToCome f system.now.component (columns_in system.now) self.old (name ∷ rest) →
            Passes (limit_elimination f system.now.component (columns_in system.now)).marked }
    {
        if self.is_full() {
            return Ok(());
        }
        system.write_row(name, &mut self.row)?;
        self.names.reserve(1)?;
        if let Inserted::Pivot(_) = self.basis.insert(self.row.as_slice())? {
            self.names.push_reserved(name);
        }
        Ok(())
    }
}
