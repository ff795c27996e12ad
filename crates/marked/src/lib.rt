// The marked figures, proved as one list, and the tests that run them with the limits and the likely mistakes.
#![tactic(auto)]

ghost use Rattle.marked.specs.Marked.{MarkedFigures};

#[cfg(test)]
mod tests;

// Its contract is the list of the marked figures.
pub fn marked_figures()
    ensures { MarkedFigures }
{}
