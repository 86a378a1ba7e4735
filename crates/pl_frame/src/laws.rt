//! Laws of the definitions.
ghost use Rattle.pl_frame.specs.Categories.{CodesFollowFirstAppearance};
ghost use Rattle.pl_frame.specs.Equal.{TypesAreTold};

/// `==` of types tells whether two types are one.
pub fn types_are_told()
    ensures { TypesAreTold }
{}

/// A text of a column of categories has as its code how many different texts stand before the first row that has it.
pub fn codes_follow_first_appearance()
    ensures { CodesFollowFirstAppearance }
{}
