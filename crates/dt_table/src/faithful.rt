ghost use Rattle.dt_table.specs.Faithful.{SolutionsAreImages, SolutionsAreMemories, ImagesAreSolutions, ListsAreProblems};

/// A law of the problem of a list; the call does nothing. Numbers for the choices that make each
/// required term 1 tell an image that satisfies the list.
pub fn solutions_are_images()
    ensures { SolutionsAreImages }
{}

/// A law of the problem of a list; the call does nothing. The memory of the image that such numbers
/// tell is a table memory: its words lie at rising places of the table's bounds.
pub fn solutions_are_memories()
    ensures { SolutionsAreMemories }
{}

/// A law of the problem of a list; the call does nothing. An image that satisfies the list gives
/// numbers for the choices that make each required term 1.
pub fn images_are_solutions()
    ensures { ImagesAreSolutions }
{}

/// A law of the problem of a list; the call does nothing. A list of an accepted model whose products
/// are within the limits has a problem: its terms are well formed, what is required is one bit wide,
/// and it has no more terms than a problem may have.
pub fn lists_are_problems()
    ensures { ListsAreProblems }
{}
