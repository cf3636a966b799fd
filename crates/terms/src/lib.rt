// The vocabulary: operators, countings, rules, marks, questions, the hole, the profile, settings, answers and the paper's limits.
#![tactic(auto)]

ghost use Rattle.std.specs.Prelude.{◌≡◌, cond, T, eqb, Ok, Err};
ghost use Rattle.std.specs.Int.Signed.{le_z};
ghost use Rattle.terms.specs.Limits.{is_item, is_kind, is_left, is_concluded, is_marked, is_label, is_depth};
ghost use Rattle.terms.specs.Stated.{stated};
ghost use Rattle.terms.specs.Operators.{read_if, is_distance, operator_of, code_of, distance_of, is_operator};
ghost use Rattle.terms.specs.Countings.{bound, is_counting, counting_of};
ghost use Rattle.terms.specs.Counted.{counted, counted_rule};
ghost use Rattle.terms.specs.declared.Answer.TheVariants as Said;
ghost use Rattle.terms.specs.Refusals.{number_of_refusal};
ghost use Rattle.terms.specs.Answers.{number_of, value_of};
ghost use Rattle.terms.specs.Holes.{is_inside, is_hole, lies_in};
ghost use Rattle.terms.specs.HoleLaws.{is_cut, line_of};
ghost use Rattle.terms.specs.Held.{operator_in, is_settings, is_named, is_rule, is_markable, is_statement, is_placed, is_ordered, is_mark, is_question};

pub const ITEMS: u8 = 16;

pub const LABELS: u8 = 64;

pub const KINDS: u8 = 8;

pub const EVERY: u8 = 0;

pub const NEVER: u8 = 63;

pub const RULES: usize = 128;

pub const MARKS: usize = 256;

pub const DEPTHS: usize = 96;

pub const CUTS: usize = 192;

pub const INTERVALS: usize = 193;

pub const LABEL_ENTRIES: usize = 3_088;

pub const LINK_ENTRIES: usize = 49_408;

pub const SPAN_NUMBERS: usize = 194;

pub const WITHIN_MOST: u32 = 300_000;

pub const SHALLOWEST: i32 = -10_000;

pub const DEEPEST: i32 = 200_000;

pub const NO_TOP: i32 = -2_147_483_648;

pub const NO_BOTTOM: i32 = 2_147_483_647;

// The constants above in one value, so that a contract ties each of them to the definitions.
#[derive(Clone, Copy)]
pub struct Limits {
    pub items: u8,
    pub labels: u8,
    pub kinds: u8,
    pub every: u8,
    pub never: u8,
    pub rules: usize,
    pub marks: usize,
    pub depths: usize,
    pub cuts: usize,
    pub intervals: usize,
    pub label_entries: usize,
    pub link_entries: usize,
    pub span_numbers: usize,
    pub within_most: u32,
    pub shallowest: i32,
    pub deepest: i32,
    pub no_top: i32,
    pub no_bottom: i32,
}

impl Limits {
    pub fn of_code() -> Limits
        ensures { result ≡ stated }
    {
        Limits {
            items: ITEMS,
            labels: LABELS,
            kinds: KINDS,
            every: EVERY,
            never: NEVER,
            rules: RULES,
            marks: MARKS,
            depths: DEPTHS,
            cuts: CUTS,
            intervals: INTERVALS,
            label_entries: LABEL_ENTRIES,
            link_entries: LINK_ENTRIES,
            span_numbers: SPAN_NUMBERS,
            within_most: WITHIN_MOST,
            shallowest: SHALLOWEST,
            deepest: DEEPEST,
            no_top: NO_TOP,
            no_bottom: NO_BOTTOM,
        }
    }
}

// Why a record or a call is turned away.
#[derive(Clone, Copy, PartialEq, Eq, Debug)]
pub enum Refusal {
    ShortMemory,
    BadBlock,
    BadFrame,
    UnknownKind,
    BadLength,
    BadName,
    BadOperator,
    BadDepth,
    AlreadyHeld,
    NotHeld,
    ListFull,
    TooManyDepths,
    BadPrice,
    EndsReversed,
    RulesHeld,
    OutsideHole,
    MarksHeld,
    OutsideProfile,
}

impl Refusal {
    // The number by which an answer names it.
    pub fn number(self) -> u8
        ensures { result ≡ number_of_refusal self }
    {
        match self {
            Refusal::ShortMemory => 1,
            Refusal::BadBlock => 2,
            Refusal::BadFrame => 3,
            Refusal::UnknownKind => 4,
            Refusal::BadLength => 5,
            Refusal::BadName => 6,
            Refusal::BadOperator => 7,
            Refusal::BadDepth => 8,
            Refusal::AlreadyHeld => 9,
            Refusal::NotHeld => 10,
            Refusal::ListFull => 11,
            Refusal::TooManyDepths => 12,
            Refusal::BadPrice => 13,
            Refusal::EndsReversed => 14,
            Refusal::RulesHeld => 15,
            Refusal::OutsideHole => 16,
            Refusal::MarksHeld => 17,
            Refusal::OutsideProfile => 20,
        }
    }
}

// One test: refused unless it passes.
pub fn require(passes: bool, refusal: Refusal) -> Result<(), Refusal>
    ensures { result ≡ cond passes (Ok tt) (Err refusal) }
{
    if passes {
        return Ok(());
    }
    Err(refusal)
}

pub fn is_item(item: u8) -> bool
    ensures { result ≡ is_item item }
{
    item < ITEMS
}

pub fn is_kind(kind: u8) -> bool
    ensures { result ≡ is_kind kind }
{
    kind < KINDS
}

// A label on a rule's left side.
pub fn is_left(label: u8) -> bool
    ensures { result ≡ is_left label }
{
    label < NEVER
}

pub fn is_concluded(label: u8) -> bool
    ensures { result ≡ is_concluded label }
{
    (EVERY < label) & (label < LABELS)
}

pub fn is_marked(label: u8) -> bool
    ensures { result ≡ is_marked label }
{
    (EVERY < label) & (label < NEVER)
}

// A label that a question may name.
pub fn is_label(label: u8) -> bool
    ensures { result ≡ is_label label }
{
    label < LABELS
}

// A depth that an end of a mark or of the hole may have.
pub fn is_depth(depth: i32) -> bool
    ensures { result ≡ is_depth depth }
{
    (SHALLOWEST <= depth) & (depth <= DEEPEST)
}

// How WITHIN counts a distance: by the old counting it is less than n, by the new one at most n.
#[derive(Clone, Copy)]
pub enum Counting {
    Old,
    New,
}

// A number by which a record names a counting.
pub fn is_counting(number: u8) -> bool
    ensures { result ≡ is_counting number }
{
    (number == 1) | (number == 2)
}

impl Counting {
    // The counting that a number names; the old one where it names none.
    pub fn of(number: u8) -> Counting
        ensures { result ≡ counting_of number }
    {
        if number == 2 {
            return Counting::New;
        }
        Counting::Old
    }

    // What a distance within n is less than.
    pub fn bound(self, n: u32) -> u32
        requires { T (is_distance n) }
        ensures { result ≡ bound self n }
    {
        match self {
            Counting::Old => n,
            Counting::New => n + 1,
        }
    }
}

// An operator with its distance inside it.
#[derive(Clone, Copy)]
pub enum Operator {
    Within(u32),
    Between,
    Above,
    Below,
    Anywhere,
}

// The operator where the paper has no distance for it: n must be 0.
fn without_distance(n: u32, operator: Operator) -> Option<Operator>
    ensures { result ≡ read_if (eqb n 0) operator }
{
    (n == 0).then_some(operator)
}

impl Operator {
    // Gives each set itself.
    pub const WITHIN_1: Operator = Operator::Within(1);

    pub const BETWEEN: Operator = Operator::Between;

    // The operator that a code and a distance name, where they name one.
    pub fn new(code: u8, n: u32) -> Option<Operator>
        ensures { result ≡ operator_of code n }
    {
        match code {
            1 => ((1 <= n) & (n <= WITHIN_MOST)).then_some(Operator::Within(n)),
            2 => without_distance(n, Operator::BETWEEN),
            3 => without_distance(n, Operator::Above),
            4 => without_distance(n, Operator::Below),
            5 => without_distance(n, Operator::Anywhere),
            _ => None,
        }
    }

    pub fn code(self) -> u8
        ensures { result ≡ code_of self }
    {
        match self {
            Operator::Within(_) => 1,
            Operator::Between => 2,
            Operator::Above => 3,
            Operator::Below => 4,
            Operator::Anywhere => 5,
        }
    }

    pub fn distance(self) -> u32
        ensures { result ≡ distance_of self }
    {
        match self {
            Operator::Within(n) => n,
            Operator::Between => 0,
            Operator::Above => 0,
            Operator::Below => 0,
            Operator::Anywhere => 0,
        }
    }

    // Its distance is one that WITHIN may have.
    pub fn in_range(self) -> bool
        ensures { result ≡ is_operator self }
    {
        match self {
            Operator::Within(n) => (1 <= n) & (n <= WITHIN_MOST),
            Operator::Between => true,
            Operator::Above => true,
            Operator::Below => true,
            Operator::Anywhere => true,
        }
    }

    // As it is applied: with the bound in the place of its distance.
    pub fn counted(self, counting: Counting) -> Operator
        requires { T (is_operator self) }
        ensures { result ≡ counted counting self }
    {
        match self {
            Operator::Within(n) => Operator::Within(counting.bound(n)),
            Operator::Between => Operator::Between,
            Operator::Above => Operator::Above,
            Operator::Below => Operator::Below,
            Operator::Anywhere => Operator::Anywhere,
        }
    }
}

// A rule carries its operator. Left to right: premises, then the conclusion.
#[derive(Clone, Copy)]
pub enum Rule {
    Label(Operator, u8, u8),
    Both(u8, u8, u8),
    Link(Operator, u8, u8),
    Via(u8, u8, u8),
}

impl Rule {
    // What stands in a free place of the rule list.
    pub const EMPTY: Rule = Rule::Both(0, 0, 0);

    // The labels and link kinds are in range.
    pub fn is_named(self) -> bool
        ensures { result ≡ is_named self }
    {
        match self {
            Rule::Label(_, a, b) => is_left(a) & is_concluded(b),
            Rule::Both(a, b, c) => is_left(a) & (is_left(b) & is_concluded(c)),
            Rule::Link(_, r, s) => is_kind(r) & is_kind(s),
            Rule::Via(r, a, b) => is_kind(r) & (is_left(a) & is_concluded(b)),
        }
    }

    // A rule without an operator of its own has BETWEEN for this test, as in the definition.
    pub fn operator(self) -> Operator
        ensures { result ≡ operator_in self }
    {
        match self {
            Rule::Label(operator, _, _) => operator,
            Rule::Both(_, _, _) => Operator::BETWEEN,
            Rule::Link(operator, _, _) => operator,
            Rule::Via(_, _, _) => Operator::BETWEEN,
        }
    }

    pub fn in_range(self) -> bool
        ensures { result ≡ is_rule self }
    {
        self.operator().in_range() & self.is_named()
    }

    // As it is applied: with its operator as that is applied.
    pub fn counted(self, counting: Counting) -> Rule
        requires { T (is_rule self) }
        ensures { result ≡ counted_rule counting self }
    {
        match self {
            Rule::Label(operator, a, b) => Rule::Label(operator.counted(counting), a, b),
            Rule::Both(a, b, c) => Rule::Both(a, b, c),
            Rule::Link(operator, r, s) => Rule::Link(operator.counted(counting), r, s),
            Rule::Via(r, a, b) => Rule::Via(r, a, b),
        }
    }
}

// A statement without its depth: an item has a label; a link leads from one item to another.
#[derive(Clone, Copy)]
pub enum Atom {
    Has(u8, u8),
    Linked(u8, u8, u8),
}

impl Atom {
    // It may be marked.
    pub fn is_markable(self) -> bool
        ensures { result ≡ is_markable self }
    {
        match self {
            Atom::Has(item, label) => is_item(item) & is_marked(label),
            Atom::Linked(from, kind, to) => is_item(from) & (is_kind(kind) & is_item(to)),
        }
    }

    // It may be asked for.
    pub fn is_statement(self) -> bool
        ensures { result ≡ is_statement self }
    {
        match self {
            Atom::Has(item, label) => is_item(item) & is_label(label),
            Atom::Linked(from, kind, to) => is_item(from) & (is_kind(kind) & is_item(to)),
        }
    }
}

// A question: whether a statement holds at a depth; where an item has a label.
#[derive(Clone, Copy)]
pub enum Question {
    Holds(Atom, i64),
    Spans(u8, u8),
}

impl Question {
    pub fn in_range(self) -> bool
        ensures { result ≡ is_question self }
    {
        match self {
            Question::Holds(atom, _) => atom.is_statement(),
            Question::Spans(item, label) => is_item(item) & is_label(label),
        }
    }
}

// An end of 32 bits is at or above a depth of 64.
pub fn at_or_above(end: i32, depth: i64) -> bool
    ensures { result ≡ le_z end depth }
{
    (end as i64) <= depth
}

// And at or below it.
pub fn at_or_below(end: i32, depth: i64) -> bool
    ensures { result ≡ le_z depth end }
{
    depth <= (end as i64)
}

// Which depths exist: all, where there is no hole, or those from a top to a bottom.
#[derive(Clone, Copy)]
pub enum Hole {
    Whole,
    Part(i32, i32),
}

impl Hole {
    // The depth exists.
    pub fn contains(self, depth: i64) -> bool
        ensures { result ≡ is_inside self depth }
    {
        match self {
            Hole::Whole => true,
            Hole::Part(top, bottom) => at_or_above(top, depth) & at_or_below(bottom, depth),
        }
    }

    // The depth and the one above it exist, so that a cut may part them.
    pub fn is_parted(self, cut: i32) -> bool
        ensures { result ≡ is_cut self cut }
    {
        match self {
            Hole::Whole => true,
            Hole::Part(top, bottom) => (top < cut) & (cut <= bottom),
        }
    }

    // The shallowest depth that exists; the number for no end where there is none.
    pub fn top(self) -> i32
        ensures { result ≡ (line_of self).top }
    {
        match self {
            Hole::Whole => NO_TOP,
            Hole::Part(top, _) => top,
        }
    }

    // The deepest depth that exists; the number for no end where there is none.
    pub fn bottom(self) -> i32
        ensures { result ≡ (line_of self).bottom }
    {
        match self {
            Hole::Whole => NO_BOTTOM,
            Hole::Part(_, bottom) => bottom,
        }
    }

    pub fn in_range(self) -> bool
        ensures { result ≡ is_hole self }
    {
        match self {
            Hole::Whole => true,
            Hole::Part(top, bottom) => (is_depth(top) & is_depth(bottom)) & (top <= bottom),
        }
    }
}

// A statement from a top to a bottom depth, true at each from one to the other.
#[derive(Clone, Copy)]
pub struct Mark {
    pub atom: Atom,
    pub top: i32,
    pub bottom: i32,
}

impl Mark {
    // What stands in a free place of the mark list.
    pub const EMPTY: Mark = Mark {
        atom: Atom::Has(0, 0),
        top: 0,
        bottom: 0,
    };

    // Both ends are depths that a mark may have.
    pub fn is_placed(self) -> bool
        ensures { result ≡ is_placed self }
    {
        is_depth(self.top) & is_depth(self.bottom)
    }

    // The top is not deeper than the bottom.
    pub fn is_ordered(self) -> bool
        ensures { result ≡ is_ordered self }
    {
        self.top <= self.bottom
    }

    pub fn in_range(self) -> bool
        ensures { result ≡ is_mark self }
    {
        let atom = self.atom;
        atom.is_markable() & (self.is_placed() & self.is_ordered())
    }

    // It does not reach outside the hole.
    pub fn lies_in(self, hole: Hole) -> bool
        ensures { result ≡ lies_in hole self }
    {
        hole.contains(self.top as i64) & hole.contains(self.bottom as i64)
    }
}

// Whether rules are held to the print profile. Which rules are in it is said in the crate `profile`.
#[derive(Clone, Copy)]
pub enum Profile {
    Off,
    On,
}

// What records set until RESET beside the lists.
#[derive(Clone, Copy)]
pub struct Settings {
    pub counting: Counting,
    pub hole: Hole,
    pub profile: Profile,
}

impl Settings {
    // What RESET sets.
    pub const FRESH: Settings = Settings {
        counting: Counting::Old,
        hole: Hole::Whole,
        profile: Profile::Off,
    };

    pub fn in_range(self) -> bool
        ensures { result ≡ is_settings self }
    {
        let hole = self.hole;
        hole.in_range()
    }
}

#[derive(Clone, Copy)]
pub enum Answer {
    Done,
    Yes,
    No,
    Contradiction(u8),
    Spans(u16),
    End,
    // The number, not the refusal: what is said of an answer is said of each number, and C gets it.
    Refused(u8),
}

impl From<Refusal> for Answer {
    ghost from_gives = { λ refusal answer. answer ≡ Said.Refused (number_of_refusal refusal) };

    fn from(refusal: Refusal) -> Answer {
        Answer::Refused(refusal.number())
    }
}

impl Answer {
    pub fn number(self) -> u8
        ensures { result ≡ number_of self }
    {
        match self {
            Answer::Done => 0,
            Answer::Yes => 1,
            Answer::No => 2,
            Answer::Contradiction(_) => 3,
            Answer::Spans(_) => 4,
            Answer::End => 5,
            Answer::Refused(_) => 6,
        }
    }

    // The item, the count or the refusal's number; 0 where the answer has none.
    pub fn value(self) -> u16
        ensures { result ≡ value_of self }
    {
        match self {
            Answer::Done => 0,
            Answer::Yes => 0,
            Answer::No => 0,
            Answer::Contradiction(item) => item as u16,
            Answer::Spans(count) => count,
            Answer::End => 0,
            Answer::Refused(number) => u16::from(number),
        }
    }
}
