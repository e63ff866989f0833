//! A law of paths: the function's contract is the law, and its body is empty.
ghost use Rattle.path_minimum.specs.Laws.{OrderedPathIsOne};

/// Two lists that are both the path between two terminals in its order are the same list.
pub fn ordered_path_is_one()
    ensures { OrderedPathIsOne }
{}
