// Laws of JSON data and its compact text (RFC 8259). Each is the contract of a function that does
// nothing.
ghost use Rattle.cdf_parts.specs.TextLaws.{ReadIsWellLaw, ReadIsShallowLaw, ReadIsProperLaw};
ghost use Rattle.cdf_parts.specs.TextLaws.{ReadsBackLaw, ReadAgainLaw, OneTextLaw};
ghost use Rattle.cdf_parts.specs.MemberLaws.{GoneLaw, OthersStayLaw, AbsentLaw, FoundLaw};
ghost use Rattle.cdf_parts.specs.MemberLaws.{OthersStandLaw};
ghost use Rattle.cdf_parts.specs.MemberLaws.{TakenOutLaw, PutBackLaw, WithoutIsWellLaw};
ghost use Rattle.cdf_parts.specs.MemberLaws.{WithoutIsWholeLaw, WithoutIsProperLaw, PutIsProperLaw};
ghost use Rattle.cdf_parts.specs.PartLaws.{MemberIsProperLaw, ItemIsProperLaw, ArrayIsProperLaw};
ghost use Rattle.cdf_parts.specs.PartLaws.{PartIsProperLaw, DeeperIsProperLaw};
ghost use Rattle.cdf_parts.specs.PartLaws.{ArrayListLaw, PartOfPartLaw, ListedIsPartLaw};
ghost use Rattle.cdf_parts.specs.PartLaws.{PartIsShorterLaw, ItemsAreShorterLaw};
ghost use Rattle.cdf_parts.specs.PartLaws.{PartReadsBackLaw, ListedReadsBackLaw};
ghost use Rattle.cdf_parts.specs.TextExamples.{ReportExample, SpellingExample, PartExample};
ghost use Rattle.cdf_parts.specs.TextExamples.{RemovingExample};
ghost use Rattle.cdf_parts.specs.TextExamples.{UnorderedExample, RepeatedExample, FloatExample};

/// What is read is well, and nests at most 127 deep; with no float it is proper.
pub fn was_read()
    ensures well { ReadIsWellLaw }
    ensures shallow { ReadIsShallowLaw }
    ensures proper { ReadIsProperLaw }
{}

/// The compact text of data with no float reads as that data.
pub fn reads_back()
    ensures proper { ReadsBackLaw }
    ensures again { ReadAgainLaw }
{}

/// One compact text, one value.
pub fn one_text()
    ensures { OneTextLaw }
{}

/// Taking a member out of an object takes out that one alone.
pub fn take_out()
    ensures gone { GoneLaw }
    ensures others { OthersStayLaw }
    ensures absent { AbsentLaw }
{}

/// Putting a member into an object changes that one alone.
pub fn member_put_in()
    ensures found { FoundLaw }
    ensures others { OthersStandLaw }
{}

/// Taking out undoes putting in, and putting in undoes taking out.
pub fn put_back()
    ensures taken_out { TakenOutLaw }
    ensures put_back { PutBackLaw }
{}

/// An object that reads back still does without a member, and with one put in; members that are
/// well, or hold no float, stay so without one of them.
pub fn members_stay_proper()
    ensures well { WithoutIsWellLaw }
    ensures whole { WithoutIsWholeLaw }
    ensures without { WithoutIsProperLaw }
    ensures put { PutIsProperLaw }
{}

/// A part of data that reads back does so too, and what may nest so deep may nest deeper.
pub fn part_is_proper()
    ensures member { MemberIsProperLaw }
    ensures item { ItemIsProperLaw }
    ensures part { PartIsProperLaw }
    ensures deeper { DeeperIsProperLaw }
{}

/// An array of data that reads back does so too, and its items are those that it was made of.
pub fn array_is_proper()
    ensures proper { ArrayIsProperLaw }
    ensures items { ArrayListLaw }
{}

/// A part of a part is a part, as an item of an array under a name is, and none has a longer text
/// than the whole; an array has no more items than its text has bytes.
pub fn part_of_part()
    ensures part { PartOfPartLaw }
    ensures listed { ListedIsPartLaw }
    ensures shorter { PartIsShorterLaw }
    ensures fewer { ItemsAreShorterLaw }
{}

/// Each part of what was read is read again from its own compact text.
pub fn part_reads_back()
    ensures part { PartReadsBackLaw }
    ensures listed { ListedReadsBackLaw }
{}

/// The laws at a small report.
pub fn text_examples()
    ensures report { ReportExample }
    ensures spelling { SpellingExample }
    ensures part { PartExample }
    ensures removing { RemovingExample }
    ensures unordered { UnorderedExample }
    ensures repeated { RepeatedExample }
    ensures float { FloatExample }
{}
