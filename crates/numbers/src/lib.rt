// The three kinds of number: files, machines and clocks; and how clocks are numbered, which nothing else knows.
#![tactic(auto)]

ghost use Rattle.std.specs.Prelude.{◌≡◌};
ghost use Rattle.numbers.specs.Numbers.{clock_of, private_of, what_is};

// The number of clocks. specs/Numbers.antt says the same of `clocks`.
pub const CLOCKS: usize = 224;

// The clocks of machines stand first, six for each of 32 machines; then one private clock for each of 32 files.
const DOMAINS: u16 = 6;

const MACHINES: u8 = 32;

const FILES: u8 = 32;

const PRIVATE: u16 = 192;

// What is numbered from the number of clocks on is no clock. The definitions of document 01 count so, which is why it is no Option.
const NO_CLOCK: Clock = Clock(CLOCKS as u16);

// A file of the sheet, from 0.
#[derive(Clone, Copy, Debug, Default, PartialEq, Eq)]
pub struct File(pub u8);

// A machine, from 0, which is the host.
#[derive(Clone, Copy, Debug, Default, PartialEq, Eq)]
pub struct Machine(pub u8);

// A clock, from 0; a number from CLOCKS on is no clock.
#[derive(Clone, Copy, Debug, PartialEq, Eq)]
pub struct Clock(pub u16);

// Whose a clock is.
#[derive(Clone, Copy, Debug, PartialEq, Eq)]
pub enum Owner {
    // A domain, 1 to 6, of a machine.
    Domain(u8, Machine),
    // A file's private clock.
    Private(File),
}

// The clock of a domain, 1 to 6, on a machine, 0 to 31; no clock for other numbers.
#[tactic(auto, unfolding(crate::specs::Numbers::clock_of))]
pub fn domain_clock(d: u8, m: Machine) -> Clock
    ensures { result ≡ clock_of d m }
{
    if (1..=6).contains(&d) && m.0 < MACHINES {
        Clock(DOMAINS * u16::from(m.0) + u16::from(d) - 1)
    } else {
        NO_CLOCK
    }
}

// The private clock of a file, 0 to 31; no clock for other numbers.
#[tactic(auto, unfolding(crate::specs::Numbers::private_of))]
pub fn private_clock(f: File) -> Clock
    ensures { result ≡ private_of f }
{
    if f.0 < FILES {
        Clock(PRIVATE + u16::from(f.0))
    } else {
        NO_CLOCK
    }
}

// What a clock is: a domain of a machine, or a file's private clock; None if it is no clock.
#[tactic(auto, unfolding(crate::specs::Numbers::what_is))]
pub fn owner_of(c: Clock) -> Option<Owner>
    ensures { result ≡ what_is c }
{
    let n = c.0;
    if n < PRIVATE {
        Some(Owner::Domain((n % 6) as u8 + 1, Machine((n / 6) as u8)))
    } else if n < NO_CLOCK.0 {
        Some(Owner::Private(File((n - PRIVATE) as u8)))
    } else {
        None
    }
}
