ghost use Rattle.std.specs.Prelude.{◌≡◌, map};
ghost use Rattle.cdf_form.specs.Tables.{table, entries_of, type_text, classes_of, listed_in};

/// A class of the Cast Vote Records Common Data Format (NIST SP 1500-103), under the standard's
/// name.
#[derive(Clone, Copy, PartialEq, Eq)]
pub enum Class {
    CastVoteRecordReport,
    Cvr,
    CvrSnapshot,
    Annotation,
    CvrContest,
    CvrContestSelection,
    SelectionPosition,
    CvrWriteIn,
    Election,
    BallotMeasureContest,
    CandidateContest,
    Contest,
    PartyContest,
    RetentionContest,
    BallotMeasureSelection,
    ContestSelection,
    GpUnit,
    Party,
    ReportingDevice,
    CandidateSelection,
    PartySelection,
    Candidate,
}

/// The classes that an object may have at some place, named for what stands there.
#[derive(Clone, Copy, PartialEq, Eq)]
pub enum Group {
    Reports,
    Cvrs,
    Elections,
    GpUnits,
    Parties,
    ReportingDevices,
    Snapshots,
    Annotations,
    CvrContests,
    CvrContestSelections,
    SelectionPositions,
    WriteIns,
    Candidates,
    Contests,
    ContestSelections,
}

/// An enumeration of the standard, or the one version that is read.
#[derive(Clone, Copy, PartialEq, Eq)]
pub enum Listing {
    CvrType,
    CvrStatus,
    ContestStatus,
    ContestSelectionStatus,
    PositionStatus,
    IndicationStatus,
    AllocationStatus,
    ReportType,
    VoteVariation,
    Version,
}

/// What one value may be.
#[derive(Clone, Copy, PartialEq, Eq)]
pub enum Leaf {
    /// A text.
    Text,
    /// A text that isn't empty.
    Name,
    /// A number from 0 to 4,294,967,295.
    Count,
    /// A number.
    Whole,
    /// True or false.
    Truth,
    /// A date-time with an offset, as `jiff` reads it, and with no `[`.
    Moment,
    /// Fractional votes, which are refused.
    Fractional,
    /// A text of the enumeration.
    Listed(Listing),
    /// An object of one of the classes.
    Object(Group),
}

/// The member whose texts are distinct among the items of an array.
#[derive(Clone, Copy, PartialEq, Eq)]
pub enum Key {
    /// None: the items may be alike.
    Free,
    /// `@id`.
    Id,
    /// `ContestId`.
    Contest,
}

/// What a member may be.
#[derive(Clone, Copy, PartialEq, Eq)]
pub enum Kind {
    /// One value.
    One(Leaf),
    /// An array of such values, with at least and at most so many items.
    Array(Leaf, usize, usize, Key),
}

/// A member of a class.
#[derive(Clone, Copy)]
pub struct Member {
    /// Its name.
    pub name: &'static str,
    /// Whether it has to be there.
    pub required: bool,
    /// What its value may be.
    pub kind: Kind,
}

/// The bound of an array of any length, which no array reaches.
pub const ANY: usize = 0xffff_ffff_ffff_ffff;

/// The text of a class at `@type`. Takes no memory.
pub fn class_text(class: Class) -> &'static str
    ensures { result.now ≡ type_text class }
{
    match class {
        Class::CastVoteRecordReport => "CVR.CastVoteRecordReport",
        Class::Cvr => "CVR.CVR",
        Class::CvrSnapshot => "CVR.CVRSnapshot",
        Class::Annotation => "CVR.Annotation",
        Class::CvrContest => "CVR.CVRContest",
        Class::CvrContestSelection => "CVR.CVRContestSelection",
        Class::SelectionPosition => "CVR.SelectionPosition",
        Class::CvrWriteIn => "CVR.CVRWriteIn",
        Class::Election => "CVR.Election",
        Class::BallotMeasureContest => "CVR.BallotMeasureContest",
        Class::CandidateContest => "CVR.CandidateContest",
        Class::Contest => "CVR.Contest",
        Class::PartyContest => "CVR.PartyContest",
        Class::RetentionContest => "CVR.RetentionContest",
        Class::BallotMeasureSelection => "CVR.BallotMeasureSelection",
        Class::ContestSelection => "CVR.ContestSelection",
        Class::GpUnit => "CVR.GpUnit",
        Class::Party => "CVR.Party",
        Class::ReportingDevice => "CVR.ReportingDevice",
        Class::CandidateSelection => "CVR.CandidateSelection",
        Class::PartySelection => "CVR.PartySelection",
        Class::Candidate => "CVR.Candidate",
    }
}

/// The classes of a group. Takes no memory.
pub fn classes(group: Group) -> &'static [Class]
    ensures { result.now ≡ classes_of group }
{
    match group {
        Group::Reports => &[Class::CastVoteRecordReport],
        Group::Cvrs => &[Class::Cvr],
        Group::Elections => &[Class::Election],
        Group::GpUnits => &[Class::GpUnit],
        Group::Parties => &[Class::Party],
        Group::ReportingDevices => &[Class::ReportingDevice],
        Group::Snapshots => &[Class::CvrSnapshot],
        Group::Annotations => &[Class::Annotation],
        Group::CvrContests => &[Class::CvrContest],
        Group::CvrContestSelections => &[Class::CvrContestSelection],
        Group::SelectionPositions => &[Class::SelectionPosition],
        Group::WriteIns => &[Class::CvrWriteIn],
        Group::Candidates => &[Class::Candidate],
        Group::Contests => &[
            Class::BallotMeasureContest,
            Class::CandidateContest,
            Class::Contest,
            Class::PartyContest,
            Class::RetentionContest,
        ],
        Group::ContestSelections => &[
            Class::BallotMeasureSelection,
            Class::CandidateSelection,
            Class::ContestSelection,
            Class::PartySelection,
        ],
    }
}

/// The texts of an enumeration. Takes no memory.
pub fn texts(listing: Listing) -> &'static [&'static str]
    ensures { map (λ s. s.now) result.now ≡ listed_in listing }
{
    match listing {
        Listing::CvrType => &["interpreted", "modified", "original"],
        Listing::CvrStatus => &["needs-adjudication", "other"],
        Listing::ContestStatus => &[
            "invalidated-rules",
            "not-indicated",
            "other",
            "overvoted",
            "undervoted",
        ],
        Listing::ContestSelectionStatus => &[
            "generated-rules",
            "invalidated-rules",
            "needs-adjudication",
            "other",
        ],
        Listing::PositionStatus => &[
            "adjudicated",
            "generated-rules",
            "invalidated-rules",
            "other",
        ],
        Listing::IndicationStatus => &["no", "unknown", "yes"],
        Listing::AllocationStatus => &["no", "unknown", "yes"],
        Listing::ReportType => &[
            "adjudicated",
            "aggregated",
            "originating-device-export",
            "other",
            "rcv-round",
        ],
        Listing::VoteVariation => &[
            "approval",
            "borda",
            "cumulative",
            "majority",
            "n-of-m",
            "other",
            "plurality",
            "proportional",
            "range",
            "rcv",
            "super-majority",
        ],
        Listing::Version => &["1.0.0"],
    }
}

// Members of a class, one a line.
macro_rules! members {
    (@is required) => { true };
    (@is optional) => { false };
    (@leaf Object $group:ident) => { Leaf::Object(Group::$group) };
    (@leaf Listed $listing:ident) => { Leaf::Listed(Listing::$listing) };
    (@leaf $leaf:ident) => { Leaf::$leaf };
    (@kind One $leaf:expr,) => { Kind::One($leaf) };
    (@kind Array $leaf:expr, $least:expr, $most:expr, $key:ident) => {
        Kind::Array($leaf, $least, $most, Key::$key)
    };
    ($($need:ident $name:literal: $kind:ident($leaf:ident $(($of:ident))? $(, $bound:tt)*);)*) => {
        &[$(Member {
            name: $name,
            required: members!(@is $need),
            kind: members!(@kind $kind members!(@leaf $leaf $($of)?), $($bound),*),
        }),*]
    };
}

/// The members of a class, in byte order of their names. Which are required is this project's own
/// profile. Takes no memory.
pub fn class_members(class: Class) -> &'static [Member]
    ensures { entries_of result.now ≡ table class }
{
    match class {
        Class::CastVoteRecordReport => members! {
            optional "CVR": Array(Object(Cvrs), 0, ANY, Free);
            required "Election": Array(Object(Elections), 1, 1, Free);
            required "GeneratedDate": One(Moment);
            required "GpUnit": Array(Object(GpUnits), 0, ANY, Id);
            optional "Notes": One(Text);
            optional "OtherReportType": One(Text);
            optional "Party": Array(Object(Parties), 0, ANY, Id);
            required "ReportGeneratingDeviceIds": Array(Text, 0, ANY, Free);
            optional "ReportType": Array(Listed(ReportType), 0, ANY, Free);
            required "ReportingDevice": Array(Object(ReportingDevices), 0, ANY, Id);
            required "Version": One(Listed(Version));
        },
        Class::Cvr => members! {
            optional "BallotAuditId": One(Text);
            optional "BallotPrePrintedId": One(Text);
            optional "BallotSheetId": One(Text);
            optional "BallotStyleId": One(Text);
            optional "BallotStyleUnitId": One(Text);
            optional "BatchId": One(Text);
            optional "BatchSequenceId": One(Whole);
            required "CVRSnapshot": Array(Object(Snapshots), 1, ANY, Id);
            required "CreatingDeviceId": One(Name);
            required "CurrentSnapshotId": One(Text);
            required "ElectionId": One(Text);
            optional "PartyIds": Array(Text, 0, ANY, Free);
            required "UniqueId": One(Name);
        },
        Class::CvrSnapshot => members! {
            required "@id": One(Name);
            optional "Annotation": Array(Object(Annotations), 0, ANY, Free);
            optional "CVRContest": Array(Object(CvrContests), 0, ANY, Contest);
            optional "OtherStatus": One(Text);
            optional "Status": Array(Listed(CvrStatus), 0, ANY, Free);
            required "Type": One(Listed(CvrType));
        },
        Class::Annotation => members! {
            optional "AdjudicatorName": Array(Text, 0, ANY, Free);
            optional "Message": Array(Text, 0, ANY, Free);
            optional "TimeStamp": One(Moment);
        },
        Class::CvrContest => members! {
            optional "CVRContestSelection": Array(Object(CvrContestSelections), 0, 65536, Free);
            required "ContestId": One(Text);
            optional "OtherStatus": One(Text);
            optional "Overvotes": One(Count);
            optional "Selections": One(Count);
            optional "Status": Array(Listed(ContestStatus), 0, ANY, Free);
            optional "Undervotes": One(Count);
            optional "WriteIns": One(Count);
        },
        Class::CvrContestSelection => members! {
            optional "ContestSelectionId": One(Text);
            optional "OptionPosition": One(Whole);
            optional "OtherStatus": One(Text);
            optional "Rank": One(Whole);
            required "SelectionPosition": Array(Object(SelectionPositions), 1, 64, Free);
            optional "Status": Array(Listed(ContestSelectionStatus), 0, ANY, Free);
            optional "TotalFractionalVotes": One(Fractional);
            optional "TotalNumberVotes": One(Count);
        },
        Class::SelectionPosition => members! {
            optional "CVRWriteIn": One(Object(WriteIns));
            optional "FractionalVotes": One(Fractional);
            required "HasIndication": One(Listed(IndicationStatus));
            optional "IsAllocable": One(Listed(AllocationStatus));
            optional "MarkMetricValue": Array(Text, 0, ANY, Free);
            required "NumberVotes": One(Count);
            optional "OtherStatus": One(Text);
            optional "Position": One(Whole);
            optional "Rank": One(Whole);
            optional "Status": Array(Listed(PositionStatus), 0, ANY, Free);
        },
        Class::CvrWriteIn => members! {},
        Class::Election => members! {
            required "@id": One(Name);
            optional "Candidate": Array(Object(Candidates), 0, ANY, Id);
            required "Contest": Array(Object(Contests), 0, ANY, Id);
            required "ElectionScopeId": One(Text);
            optional "Name": One(Text);
        },
        Class::BallotMeasureContest => members! {
            required "@id": One(Name);
            optional "ContestSelection": Array(Object(ContestSelections), 0, ANY, Id);
            optional "VoteVariation": One(Listed(VoteVariation));
        },
        Class::CandidateContest => members! {
            required "@id": One(Name);
            optional "ContestSelection": Array(Object(ContestSelections), 0, ANY, Id);
            optional "VoteVariation": One(Listed(VoteVariation));
        },
        Class::Contest => members! {
            required "@id": One(Name);
            optional "ContestSelection": Array(Object(ContestSelections), 0, ANY, Id);
            optional "VoteVariation": One(Listed(VoteVariation));
        },
        Class::PartyContest => members! {
            required "@id": One(Name);
            optional "ContestSelection": Array(Object(ContestSelections), 0, ANY, Id);
            optional "VoteVariation": One(Listed(VoteVariation));
        },
        Class::RetentionContest => members! {
            required "@id": One(Name);
            optional "ContestSelection": Array(Object(ContestSelections), 0, ANY, Id);
            optional "VoteVariation": One(Listed(VoteVariation));
        },
        Class::BallotMeasureSelection => members! {
            required "@id": One(Name);
        },
        Class::ContestSelection => members! {
            required "@id": One(Name);
        },
        Class::GpUnit => members! {
            required "@id": One(Name);
        },
        Class::Party => members! {
            required "@id": One(Name);
        },
        Class::ReportingDevice => members! {
            required "@id": One(Name);
        },
        Class::CandidateSelection => members! {
            required "@id": One(Name);
            optional "CandidateIds": Array(Text, 0, ANY, Free);
            optional "IsWriteIn": One(Truth);
        },
        Class::PartySelection => members! {
            required "@id": One(Name);
            optional "PartyIds": Array(Text, 0, ANY, Free);
        },
        Class::Candidate => members! {
            required "@id": One(Name);
            optional "PartyId": One(Text);
        },
    }
}
