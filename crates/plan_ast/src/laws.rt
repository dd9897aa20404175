// Laws of what the stages of a query make of its tuples.
ghost use Rattle.plan_ast.specs.FoldLaws.{AnswersAll, FoldsAdd, FoldsNothing, SumsAgree};

/// What a stage makes of two disjoint sets of its tuples together is the sum of what it makes of
/// each, but for the order of rows. The sets may be any: two ranges, or what two workers took.
///
/// Ruled out: a fold in which a tuple counts otherwise beside others than alone.
pub fn folds_add()
    ensures { FoldsAdd }
{}

/// What a stage makes of no tuples adds nothing, on either side.
pub fn folds_nothing()
    ensures { FoldsNothing }
{}

/// Sums don't depend on the order of rows in what they add.
pub fn sums_agree()
    ensures { SumsAgree }
{}

/// What the last stage makes of all its tuples is the answer to the query: its rows in order, its
/// totals, or its groups in ascending order of keys.
pub fn answers_all()
    ensures { AnswersAll }
{}
