//! Numbers for which a theorem holds.
ghost use Rattle.gj_fields.specs.Fields.{OrderedField, HasFloor};

/// Any numbers with sums, products and an order, each between a whole number and the next. The
/// real numbers are such.
pub trait Reals {
    ghost Number: { Type 0 };

    ghost field: { OrderedField Number };

    ghost floors: { HasFloor field };
}
