//! Laws of the definitions. Each is what a function without a body ensures.
ghost use Rattle.std.specs.Cmp.{IsTotalOrder};
ghost use Rattle.lists.specs.Orders.{IsStrictTotalOrder, EqualIsSame};
ghost use Rattle.struct_model.specs.Order.{order, list_order};
ghost use Rattle.struct_model.specs.Listing.{Before};
ghost use Rattle.struct_model.specs.Laws.{ListBefore, ComparesInside, HasOneListing};

/// The order of structures is a strict total order: two structures neither of which is before the other are equal.
pub fn order_is_total()
    ensures strict { IsStrictTotalOrder Before }
    ensures total { IsTotalOrder order }
    ensures equal { EqualIsSame order }
{}

/// The order goes by the keys, then by the numbers, and then by what stands inside as it does by itself; components are
/// compared as lists of structures are.
pub fn order_goes_inside()
    ensures { ComparesInside }
{}

/// The order of lists of structures is a strict total order too.
pub fn list_order_is_total()
    ensures strict { IsStrictTotalOrder ListBefore }
    ensures total { IsTotalOrder list_order }
    ensures equal { EqualIsSame list_order }
{}

/// Two listings of one expression on one supply are equal.
pub fn listing_is_unique()
    ensures { HasOneListing }
{}
