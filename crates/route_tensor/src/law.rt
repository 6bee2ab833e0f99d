//! What holds of all routes.
ghost use Rattle.route_tensor.specs.Pair.{TagsLaw};

/// The tag of a pair names it on each link of its route. This call tells it, and does nothing else.
pub fn tags_law()
    ensures { TagsLaw }
{}
