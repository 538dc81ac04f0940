//! The laws of anchors, shown by functions that do nothing.
ghost use Rattle.anchors.specs.Laws.{OrderIsTotal, LeftBeforeRight, AnchorsStayInOrder, AnchorsComeBack};

/// The order of anchors is total; two that are known are equal in it only where they are one anchor.
pub fn order_is_total()
    ensures { OrderIsTotal }
{}

/// In one gap a Left anchor stands before a Right one.
pub fn left_before_right()
    ensures { LeftBeforeRight }
{}

/// Anchors that are known stay known and in their order when a history grows, and the lesser never has the greater place.
pub fn anchors_stay_in_order()
    ensures { AnchorsStayInOrder }
{}

/// An anchor that is made at an offset has its place there.
pub fn anchors_come_back()
    ensures { AnchorsComeBack }
{}
