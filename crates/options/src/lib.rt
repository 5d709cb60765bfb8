// The option block: from any bytes to the accepted options, or the place of the first fault.
#![tactic(auto)]

ghost use Rattle.std.specs.Prelude.{◌≡◌, cond, not, ◌&&◌, ◌+◌, ◌-◌, ◌/◌, ◌%◌, ◌^◌, ◌≤◌, ◌<◌, min, max, eqb, length, get_or, drop};
ghost use Rattle.options.specs.OptionBlock.{between, number, fields, allowed, well_formed, number_at, width_from, goal_from, least_width, fits, bit, options_of, judged, read_block};
ghost use Rattle.options.specs.Cited.Places.{field_at, parts_with, parts_of, number_text, prefix_text};

// The tags of the fields, as the block has them. They stay numbers: an enum would be made of a byte only to be matched at once.
const FLAGS: usize = 1;

const WIDTH: usize = 2;

const GOAL: usize = 3;

const TAB: usize = 4;

const PREFIX: usize = 5;

const SKIP: usize = 6;

// The flags' bits by their weights. All of them together are the greatest number that a flags field may have.
const CROWN: usize = 1;

const TAGGED: usize = 2;

const MAIL: usize = 4;

const SPLIT: usize = 8;

const UNIFORM: usize = 16;

const QUICK: usize = 32;

const EXACT: usize = 64;

const EXACT_SKIP: usize = 128;

const KEEP: usize = 256;

const GLUE: usize = 512;

const CHARACTERS: usize = 1024;

const ALL_FLAGS: usize = 2047;

// A part of the block, from start up to end.
#[derive(Clone, Copy, Debug, PartialEq, Eq)]
pub struct Part {
    pub start: usize,
    pub end: usize,
}

// The parts of the fields that were read, each under its tag.
#[derive(Clone, Copy, Debug, PartialEq, Eq, Default)]
struct Parts {
    flags: Option<Part>,
    width: Option<Part>,
    goal: Option<Part>,
    tab: Option<Part>,
    prefix: Option<Part>,
    skip: Option<Part>,
}

impl Parts {
    // A field's part, kept under its tag. The parts are changed in place: made anew for each field they would be copied, 144 bytes.
    #[tactic(auto, unfolding(crate::specs::Cited::Places::parts_with))]
    fn put(&mut self, tag: usize, part: Part)
        ensures { self.new ≡ parts_with tag part self.old }
    {
        let part = Some(part);
        match tag {
            FLAGS => self.flags = part,
            WIDTH => self.width = part,
            GOAL => self.goal = part,
            TAB => self.tab = part,
            PREFIX => self.prefix = part,
            SKIP => self.skip = part,
            _ => {}
        }
    }
}

// The options as accepted: flags after the clearing rules, width and goal settled, tab at least 1, the prefixes as parts of the block.
#[derive(Clone, Copy, Debug, PartialEq, Eq)]
pub struct Options {
    pub crown: bool,
    pub tagged: bool,
    pub mail: bool,
    pub split: bool,
    pub uniform: bool,
    pub quick: bool,
    pub exact_prefix: bool,
    pub exact_skip: bool,
    pub keep: bool,
    pub glue: bool,
    pub by_characters: bool,
    pub width: usize,
    pub goal: usize,
    pub tab: usize,
    pub prefix: Option<Part>,
    pub skip: Option<Part>,
}

// Why a block is refused: where its first faulty field begins, or its end where the width and goal rule fails.
#[derive(Clone, Copy, Debug, PartialEq, Eq)]
pub struct Fault {
    pub at: usize,
}

// The accepted options, or the place of the first faulty field, or the block's length where the width and goal rule fails. Each field is
// looked at once, and what it has is kept under its tag.
// In the original: `uumain`.
#[tactic(auto, using(crate::proofs::Taken::reading_fault, crate::proofs::Taken::reading_parts, crate::proofs::Taken::reading_sound))]
pub fn read_block(block: &[u8]) -> Result<Options, Fault>
    ensures { result ≡ read_block block.now }
{
    let mut at = 0;
    let mut previous = 0;
    let mut parts = Parts::default();
    while at < block.len() {
        if !well_formed(block, at, previous) {
            return Err(Fault { at });
        }
        let tag = byte_at(block, at);
        let end = field_end(block, at);
        parts.put(tag, Part { start: at + 3, end });
        previous = tag;
        at = end;
    }
    settle(block, parts)
}

// Tags ascend, the block does not end inside a field, and the value is allowed.
#[tactic(auto, using(crate::proofs::Fields::well_order, crate::proofs::Fields::well_cut, crate::proofs::Fields::well_value))]
fn well_formed(block: &[u8], at: usize, previous: usize) -> bool
    requires { at < length block.now }
    ensures { result ≡ well_formed (field_at block.now at previous) }
{
    let tag = byte_at(block, at);
    let end = field_end(block, at);
    previous < tag && end <= block.len() && allowed(tag, &block[at + 3..end])
}

// Whether a tag's field may have this value. A tag that is not known may have none.
#[tactic(auto, unfolding(crate::specs::OptionBlock::allowed, crate::specs::Cited::Places::number_text, crate::specs::Cited::Places::prefix_text))]
fn allowed(tag: usize, value: &[u8]) -> bool
    ensures { result ≡ allowed tag (length value.now) value.now }
{
    match tag {
        FLAGS => is_number(value, 0, ALL_FLAGS),
        WIDTH | GOAL => is_number(value, 1, 1000),
        TAB => is_number(value, 0, 100),
        PREFIX | SKIP => is_prefix(value),
        _ => false,
    }
}

// A number of two bytes, within these bounds.
#[tactic(auto, unfolding(crate::specs::Cited::Places::number_text))]
fn is_number(value: &[u8], least: usize, most: usize) -> bool
    ensures { result ≡ number_text least most value.now }
{
    let n = number_at(value, 0);
    value.len() == 2 && least <= n && n <= most
}

// At most 255 bytes, none of them damaged.
#[tactic(auto, unfolding(crate::specs::Cited::Places::prefix_text, text::specs::Characters::damage))]
fn is_prefix(value: &[u8]) -> bool
    ensures { result ≡ prefix_text value.now }
{
    value.len() <= 255 && text::first_damage(value).is_none()
}

// The options of a block whose fields are all well formed, if they keep the width and goal rule.
fn settle(block: &[u8], parts: Parts) -> Result<Options, Fault>
    requires { parts ≡ parts_of (fields block.now) }
    ensures { result ≡ judged block.now (fields block.now) None }
{
    let o = options_of(block, parts);
    if fits(least_width(parts.width, parts.goal), o.width, o.goal) {
        Ok(o)
    } else {
        Err(Fault { at: block.len() })
    }
}

// The options by the parts of the block; one that is missing is not given.
// In the original: `uumain`.
#[tactic(auto, unfolding(crate::specs::OptionBlock::options_of))]
fn options_of(block: &[u8], parts: Parts) -> Options
    requires { parts ≡ parts_of (fields block.now) }
    ensures { result ≡ options_of block.now (fields block.now) }
{
    let flags = number_or(block, parts.flags, 0);
    let tab = number_or(block, parts.tab, 8);
    Options {
        crown: is_crown(flags),
        tagged: is_tagged(flags),
        mail: is_set(flags, MAIL),
        split: is_set(flags, SPLIT),
        uniform: is_set(flags, UNIFORM),
        quick: is_set(flags, QUICK),
        exact_prefix: is_set(flags, EXACT),
        exact_skip: is_set(flags, EXACT_SKIP),
        keep: is_set(flags, KEEP),
        glue: is_set(flags, GLUE),
        by_characters: is_set(flags, CHARACTERS),
        width: width_of(block, parts.width, parts.goal),
        goal: goal_of(block, parts.width, parts.goal),
        tab: tab.max(1),
        prefix: parts.prefix,
        skip: parts.skip,
    }
}

// Split clears crown.
fn is_crown(flags: usize) -> bool
    ensures { result ≡ (bit 0 flags && not (bit 3 flags)) }
{
    is_set(flags, CROWN) && !is_set(flags, SPLIT)
}

// Crown clears tagged, and so does split.
fn is_tagged(flags: usize) -> bool
    ensures { result ≡ (bit 1 flags && not (bit 0 flags) && not (bit 3 flags)) }
{
    is_set(flags, TAGGED) && !is_set(flags, CROWN) && !is_set(flags, SPLIT)
}

// Whether the bit of this weight is set.
fn is_set(flags: usize, weight: usize) -> bool
    requires { 0 < weight }
    ensures { result ≡ eqb (flags / weight % 2) 1 }
{
    flags / weight % 2 == 1
}

// A goal without a width asks for some columns beyond it.
// In the original: `uumain`.
fn width_of(block: &[u8], width: Option<Part>, goal: Option<Part>) -> usize
    ensures { result ≡ width_from block.now width goal }
{
    match (width, goal) {
        (Some(part), _) => number_at(block, part.start),
        (None, Some(part)) => {
            let g = number_at(block, part.start);
            (g * 100 / 94).max(g + 3)
        }
        (None, None) => 79,
    }
}

// A width without a goal leaves some columns below it.
// In the original: `uumain`.
fn goal_of(block: &[u8], width: Option<Part>, goal: Option<Part>) -> usize
    ensures { result ≡ goal_from block.now width goal }
{
    match (width, goal) {
        (_, Some(part)) => number_at(block, part.start),
        (Some(part), None) => {
            let w = number_at(block, part.start);
            (w * 94 / 100).min(w.saturating_sub(3))
        }
        (None, None) => 74,
    }
}

// The least width that is accepted: a width without a goal must be at least 6.
fn least_width(width: Option<Part>, goal: Option<Part>) -> usize
    ensures { result ≡ least_width width goal }
{
    if width.is_some() && goal.is_none() {
        6
    } else {
        1
    }
}

// The width and goal rule. What the width has beyond the goal is at most the goal again: twice the goal could overflow.
// In the original: `uumain`.
#[tactic(auto, unfolding(crate::specs::OptionBlock::fits))]
fn fits(least: usize, width: usize, goal: usize) -> bool
    ensures { result ≡ fits least width goal }
{
    least <= width && goal <= width && width - goal <= goal && width <= 1000
}

// Where the field at a place ends by the length that it gives, which may be past the block's end.
fn field_end(block: &[u8], at: usize) -> usize
    requires { at < length block.now }
    ensures { result ≡ at + 3 + number (drop (at + 1) block.now) }
{
    at + 3 + number_at(block, at + 1)
}

// The number of a part, or what stands for it where it is not given.
fn number_or(block: &[u8], part: Option<Part>, other: usize) -> usize
    ensures { result ≡ number_at block.now other part }
{
    match part {
        Some(part) => number_at(block, part.start),
        None => other,
    }
}

// Two bytes, most significant byte first.
#[tactic(auto, unfolding(crate::specs::OptionBlock::number))]
fn number_at(block: &[u8], at: usize) -> usize
    ensures value { result ≡ number (drop at block.now) }
    ensures bound { result ≤ 65535 }
{
    if at < block.len() {
        byte_at(block, at) * 256 + byte_at(block, at + 1)
    } else {
        0
    }
}

// The byte at a place, and 0 past the end.
pub fn byte_at(block: &[u8], at: usize) -> usize
    ensures value { result ≡ get_or block.now at 0 }
    ensures bound { result ≤ 255 }
{
    usize::from(block.get(at).copied().unwrap_or(0))
}
