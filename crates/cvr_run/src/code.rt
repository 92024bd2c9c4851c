// Made by tools/codes from docs/FAULTS.md. Change that.

ghost use Rattle.std.specs.Prelude.{◌≡◌};
ghost use Rattle.cvr_run.specs.Code as spec;
ghost use Rattle.cvr_run.specs.Code.{all_codes, code_name, code_text, explain_text, no_code_text};

/// A code that the program reports, or another word for one.
#[derive(Clone, Copy, Debug, PartialEq, Eq)]
pub enum Code {
    /// `E1`
    E1,
    /// `E2`
    E2,
    /// `E3`
    E3,
    /// `rule`
    RuleLine,
    /// `E4`
    E4,
    /// `E5`
    E5,
    /// `E6`
    E6,
    /// `J2`
    J2,
    /// `N1`
    N1,
    /// `K1`
    K1,
    /// `K2`
    K2,
    /// `X1`
    X1,
    /// `H1`
    H1,
    /// `H2`
    H2,
    /// `V1`
    V1,
    /// `L1`
    L1,
    /// `L2`
    L2,
    /// `L3`
    L3,
    /// `L4`
    L4,
    /// `memory`
    MemoryLine,
    /// `L5`
    L5,
    /// `words`
    WordsLine,
}

// What is printed of `E1`.
fn e1_text() -> &'static str
    ensures { result.now ≡ spec.e1_text }
{
    "E1  The file has more than 67,108,864 bytes.

Example:
  scan.json: E1

What to do:
  Have the tool that wrote it write several files.
"
}

// What is printed of `E2`.
fn e2_text() -> &'static str
    ensures { result.now ≡ spec.e2_text }
{
    "E2  The file is no JSON text in UTF-8, is nested more than 127 deep, or has a
    number too large for a float or half a pair of surrogates in a text.

Example:
  scan.json: E2

What to do:
  Check whether it was cut off or is of another kind, such as XML; remove a
  byte order mark. On a terminal a note says where it stops being JSON.
"
}

// What is printed of `E3`.
fn e3_text() -> &'static str
    ensures { result.now ≡ spec.e3_text }
{
    "E3, rule  The file hasn't the form of a report: the value at the path breaks
          the rule.

Example:
  scan.json: E3 /CVR/0/UniqueId 2

What to do:
  See the rules below.

Rules, by the number at the end of the line:
   1  The value isn't an object. Have it written as one.
   2  A member that the profile demands is absent. Have it written; see the
      class tables in docs/FORMAT.md.
   3  The value is of another JSON kind than the member has. Often a number
      stands for a text: have it written as the table says.
   4  The text isn't one of the enumeration's. Only version 1.0.0 and the
      listed texts are read.
   5  @type names a class that can't stand here. The text is CVR. and the
      class.
   6  A name is empty. Give it a name; an empty one would join unlike records.
   7  A count is below 0 or above 4,294,967,295. Check the tool that wrote it.
   8  An array has too few items. One Election; a snapshot and a position at
      least.
   9  An array has too many items. One Election a file, 64 positions, 65,536
      contest selections.
  10  FractionalVotes or TotalFractionalVotes is there. Fractional votes
      aren't counted; such a file can't be read.
  11  jiff reads no instant from the text, or it has a [: it has to be a
      date-time with an offset, with at most nine digits of fraction and of an
      instant that jiff has. Write it as 2024-11-05T20:00:00Z or
      2024-11-05T15:00:00-05:00.
  12  An earlier item of the array has the same @id. Nothing says which of the
      two is meant; mend the file.
  13  An earlier contest of the snapshot has the same ContestId. Put its
      selections under one CVRContest.
  14  A number, anywhere in the file, isn't whole. Write it whole, or as a
      text, as MarkMetricValue is.
"
}

// What is printed of `E4`.
fn e4_text() -> &'static str
    ensures { result.now ≡ spec.e4_text }
{
    "E4  The text at the path has to be the @id of something in the same file, and
    names nothing.

Example:
  scan.json: E4 /CVR/0/CVRSnapshot/0/CVRContest/0/ContestId

What to do:
  Look the id up in the file; the table of references is in docs/FORMAT.md.
"
}

// What is printed of `E5`.
fn e5_text() -> &'static str
    ensures { result.now ≡ spec.e5_text }
{
    "E5  The object at the path (the Election, a GpUnit or a Party) isn't the
    definition's: it has another text under the same @id, or the definition
    has no such object.

Example:
  scan.json: E5 /GpUnit/0

What to do:
  Was the file exported under another version of the election? Hand in the
  definition that it was made under, or have it exported again.
"
}

// What is printed of `E6`.
fn e6_text() -> &'static str
    ensures { result.now ≡ spec.e6_text }
{
    "E6  Memory was refused while the file was read or its facts were taken in.
    Nothing is printed, since the text would lack the file (status 4).

Example:
  scan.json: E6

What to do:
  Free memory, or hand in fewer files.
"
}

// What is printed of `J2`.
fn j2_text() -> &'static str
    ensures { result.now ≡ spec.j2_text }
{
    "J2  Memory was refused while one office took in what another holds. Nothing is
    printed, since the text would lack the step (status 4).

Example:
  1>2: J2

What to do:
  Free memory, or hand in fewer files.
"
}

// What is printed of `N1`.
fn n1_text() -> &'static str
    ensures { result.now ≡ spec.n1_text }
{
    "N1  There is no office with a number of the step: offices count from 1 to
    OFFICES (status 1).

Example:
  1>4: N1

What to do:
  Name an office from 1 to OFFICES, or ask for more offices.
"
}

// What is printed of `K1`.
fn k1_text() -> &'static str
    ensures { result.now ≡ spec.k1_text }
{
    "K1  The file could not be opened or read, or is a folder. A file of a step is
    reported by its path. The program stops there (status 3).

Example:
  none.json: K1

What to do:
  Check the path and its permissions. An empty path can't be opened: an empty
  line of a list of files is one. A list with line ends as on Windows has a
  carriage return at the end of each path: cat -A shows it.
"
}

// What is printed of `K2`.
fn k2_text() -> &'static str
    ensures { result.now ≡ spec.k2_text }
{
    "K2  Memory was refused while the file was opened or read. The program stops
    there (status 4).

Example:
  scan.json: K2

What to do:
  Free memory, or hand in fewer files.
"
}

// What is printed of `X1`.
fn x1_text() -> &'static str
    ensures { result.now ≡ spec.x1_text }
{
    "X1  Standard output failed or took nothing. A prefix of the text may have been
    written (status 3).

Example:
  out: X1

What to do:
  Check where the output goes: a full disk, a closed pipe? Then run again.
"
}

// What is printed of `H1`.
fn h1_text() -> &'static str
    ensures { result.now ≡ spec.h1_text }
{
    "H1  DATE of merge is no date-time with an offset, or names a zone in brackets.
    Nothing is printed (status 1).

Example:
  merge: H1

What to do:
  Write it as 2024-11-06T08:00:00Z or 2024-11-06T03:00:00-05:00.
"
}

// What is printed of `H2`.
fn h2_text() -> &'static str
    ensures { result.now ≡ spec.h2_text }
{
    "H2  The definition has no ReportingDevice with DEVICE as its @id. Nothing is
    printed (status 1).

Example:
  merge: H2

What to do:
  Name one of the definition's devices; one that only files have doesn't do.
"
}

// What is printed of `V1`.
fn v1_text() -> &'static str
    ensures { result.now ≡ spec.v1_text }
{
    "V1  There are fewer volumes than VOLUME; how many stands after it, as
    conflicts ends with. Nothing is printed (status 1).

Example:
  merge: V1 1

What to do:
  Ask for a volume from 1 to that number.
"
}

// What is printed of `L1`.
fn l1_text() -> &'static str
    ensures { result.now ≡ spec.l1_text }
{
    "L1  No command takes the words, or none stands, or a number is out of range. A
    sentence says what is wrong; a hint follows where a like word would do,
    and the usage. No file was opened (status 2).

Example:
  error: unrecognized subcommand 'taly'

What to do:
  cvr --help lists the commands, cvr help tally the words of one. A path that
  begins with - stands after --.
"
}

// What is printed of `L2`.
fn l2_text() -> &'static str
    ensures { result.now ≡ spec.l2_text }
{
    "L2  The words ask for help: it is printed on standard output (status 0).

Example:
  Usage: cvr <COMMAND>

What to do:
  Nothing: this is no fault.
"
}

// What is printed of `L3`.
fn l3_text() -> &'static str
    ensures { result.now ≡ spec.l3_text }
{
    "L3  The step has no form. The first such step is reported, and no file was
    opened (status 2).

Example:
  2:scan.json: L3

What to do:
  K=FILE or 'K>L', in quotes since > is a sign of the shell; K and L are
  decimal numbers of one to nine digits, without a sign or a space.
"
}

// What is printed of `L4`.
fn l4_text() -> &'static str
    ensures { result.now ≡ spec.l4_text }
{
    "L4, memory  Memory was refused for the words (L4), for the list of the files'
            contents, for the offices, for the list of their imports or steps,
            or for the text: nothing is printed, or of merge a prefix of the
            volume. Or the path of a line E3, E4 or E5 could not be spelled:
            this line stands in its place, and the rest is done (status 4).

Example:
  memory

What to do:
  Free memory, or hand in fewer files.
"
}

// What is printed of `L5`.
fn l5_text() -> &'static str
    ensures { result.now ≡ spec.l5_text }
{
    "L5  The list of files is not UTF-8, or has more than 67,108,864 bytes. Nothing
    but it was opened (status 2).

Example:
  list.txt: L5

What to do:
  Rename the file whose path is not UTF-8; split a longer list, and add up the
  tallies of parts that have no record in common.
"
}

// What is printed of `words`.
fn words_text() -> &'static str
    ensures { result.now ≡ spec.words_text }
{
    "words  A word is not UTF-8. No file was opened (status 2).

Example:
  words

What to do:
  Rename the file, or go to its folder.
"
}

/// What is reported of words that name none. Takes no memory.
pub fn no_code() -> &'static str
    ensures { result.now ≡ no_code_text }
{
    "error: invalid value for '<CODE>'
  [possible values: E1, E2, E3, rule, E4, E5, E6, J2, N1, K1, K2, X1, H1, H2, V1, L1, L2, L3, L4, memory, L5, words]

For more information, try '--help'.
"
}

/// What is printed of `explain` itself. Takes no memory.
pub fn explain_use() -> &'static str
    ensures { result.now ≡ explain_text }
{
    "Print what a code on standard error means, and what to do

Usage: cvr explain <CODE>...

  <CODE>...  E1, E2, E3, rule, E4, E5, E6, J2, N1, K1, K2, X1, H1, H2, V1, L1,
             L2, L3, L4, memory, L5, words; in capitals or not; or a line that
             has one

Example:
  cvr explain 'scan.json: E3 /CVR/0/UniqueId 2'
"
}

/// All codes. Takes no memory.
pub fn all_codes() -> &'static [Code]
    ensures { result.now ≡ all_codes }
{
    &[
        Code::E1,
        Code::E2,
        Code::E3,
        Code::RuleLine,
        Code::E4,
        Code::E5,
        Code::E6,
        Code::J2,
        Code::N1,
        Code::K1,
        Code::K2,
        Code::X1,
        Code::H1,
        Code::H2,
        Code::V1,
        Code::L1,
        Code::L2,
        Code::L3,
        Code::L4,
        Code::MemoryLine,
        Code::L5,
        Code::WordsLine,
    ]
}

impl Code {
    /// The word that names it. Takes no memory.
    pub fn name(&self) -> &'static str
        ensures { result.now ≡ code_name self.now }
    {
        match self {
            Code::E1 => "E1",
            Code::E2 => "E2",
            Code::E3 => "E3",
            Code::RuleLine => "rule",
            Code::E4 => "E4",
            Code::E5 => "E5",
            Code::E6 => "E6",
            Code::J2 => "J2",
            Code::N1 => "N1",
            Code::K1 => "K1",
            Code::K2 => "K2",
            Code::X1 => "X1",
            Code::H1 => "H1",
            Code::H2 => "H2",
            Code::V1 => "V1",
            Code::L1 => "L1",
            Code::L2 => "L2",
            Code::L3 => "L3",
            Code::L4 => "L4",
            Code::MemoryLine => "memory",
            Code::L5 => "L5",
            Code::WordsLine => "words",
        }
    }

    /// What is printed of it. Takes no memory.
    pub fn text(&self) -> &'static str
        ensures { result.now ≡ code_text self.now }
    {
        match self {
            Code::E1 => e1_text(),
            Code::E2 => e2_text(),
            Code::E3 => e3_text(),
            Code::RuleLine => e3_text(),
            Code::E4 => e4_text(),
            Code::E5 => e5_text(),
            Code::E6 => e6_text(),
            Code::J2 => j2_text(),
            Code::N1 => n1_text(),
            Code::K1 => k1_text(),
            Code::K2 => k2_text(),
            Code::X1 => x1_text(),
            Code::H1 => h1_text(),
            Code::H2 => h2_text(),
            Code::V1 => v1_text(),
            Code::L1 => l1_text(),
            Code::L2 => l2_text(),
            Code::L3 => l3_text(),
            Code::L4 => l4_text(),
            Code::MemoryLine => l4_text(),
            Code::L5 => l5_text(),
            Code::WordsLine => words_text(),
        }
    }
}
