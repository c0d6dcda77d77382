//! Laws of contraction and conversion. Each function does nothing: its contract is the law.

ghost use Rattle.qtt_confluence.specs.Laws.{ContractionIsConfluent, TypesAreInjective, RigidHeadsDiffer, ConvertibleHeadsAgree, HeadIsExact, ContractionIsStandard, HeadIsReached, CountAloneLimits, ComparesByRecursion, EqualIsConvertible, DifferentIsApart, DefinitionsTell};

/// Two convertible terms contract to a common term.
pub fn contraction_is_confluent()
    ensures { ContractionIsConfluent }
{}

/// Convertible terms of forms that are never contracted have equal fixed parts and convertible
/// components: sorts, function types, families, constructors and primitive types, `IO` and `IO1`
/// among them.
pub fn types_are_injective()
    ensures { TypesAreInjective }
{}

/// Two heads with different forms or fixed parts are not convertible.
pub fn rigid_heads_differ()
    ensures { RigidHeadsDiffer }
{}

/// Two convertible heads have the same form and fixed parts, and convertible components.
pub fn convertible_heads_agree()
    ensures { ConvertibleHeadsAgree }
{}

/// A head within a count is where the contractions toward it end, and no head is found only
/// where one contraction more than the count can be made. A term contracts to its head.
pub fn head_is_exact()
    ensures { HeadIsExact }
{}

/// What a term contracts to by any contractions, wherever they are made, it contracts to by
/// contractions toward the head first and then, in the same way, inside the components.
pub fn contraction_is_standard()
    ensures { ContractionIsStandard }
{}

/// A term that is convertible to a head has a head within some count, of the same form and fixed
/// parts, with convertible components.
pub fn head_is_reached()
    ensures { HeadIsReached }
{}

/// The comparison is that of its relation, in which nothing but the count of contractions limits
/// it: a contraction alone takes from the count, and the count is spent only where one
/// contraction more than it would be made.
pub fn count_alone_limits()
    ensures { CountAloneLimits }
{}

/// The comparison is a recursion: terms that are the same are equal; otherwise the heads of
/// both, then their forms and fixed parts, and then their components from left to right are
/// compared, all under one count, and the first that is not equal is the answer.
pub fn compares_by_recursion()
    ensures { ComparesByRecursion }
{}

/// Terms that the comparison finds equal are convertible.
pub fn equal_is_convertible()
    ensures { EqualIsConvertible }
{}

/// Terms that the comparison finds different are not convertible.
pub fn different_is_apart()
    ensures { DifferentIsApart }
{}

/// The laws speak of something: some terms are convertible and not the same, some are not
/// convertible, and some contract in two ways.
pub fn definitions_tell()
    ensures { DefinitionsTell }
{}
