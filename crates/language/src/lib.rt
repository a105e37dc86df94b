// The answers of the three machines, their settings, and the check of their input.
//
// `checked` tries document 01's refusals 1 to 11, and document 02's 16 to 18, in their order. Here are the types that a machine takes and
// gives; the language and what a machine answers are the definitions of specs/.

#![tactic(auto)]

ghost use Rattle.std.specs.Prelude.{◌≡◌, ◌↔◌, ◌<◌, Ok};
ghost use Rattle.table.specs.Read.{refused};
ghost use Rattle.language.specs.Checks.{range_of, workspace_of, settings_of, checked_of};
ghost use Rattle.language.specs.Admitted.{Admitted};
ghost use Rattle.language.specs.House.{House};

use schedule::{Fuel, Span, Work};
use table::Refusal;

// 01: "The counts are transitions, forks, work and span." 02, P7: they gain "the largest number of frames occupied at once", the depth.
#[derive(Clone, Copy)]
pub struct Counts {
    pub transitions: u64,
    pub forks: u64,
    pub work: Work,
    pub span: Span,
    pub deepest: usize,
}

// 01, "Stopped by the run's state": "The answer is the number, function, node and transitions made." 02, P7: and the depth reached.
// Kept: the number, what may not change: `StopListed`, `StopsAgree` and the C words tell numbers, as 01 does.
#[derive(Clone, Copy)]
pub struct Stop {
    pub number: u32,
    pub function: usize,
    pub node: usize,
    pub transitions: u64,
    pub deepest: usize,
}

// What a machine answers: a value with its counts, a stop with its place, or a refusal of the input.
#[derive(Clone, Copy)]
pub enum Answer {
    Value(u64, Counts),
    Stopped(Stop),
    Refused(Refusal),
}

// What a machine is given beside table, arguments and workspace: the fuel, N and τ.
#[derive(Clone, Copy)]
pub struct Settings {
    pub fuel: Fuel,
    pub period: u64,
    pub tau: u64,
}

impl Settings {
    // 01: "the house default: fuel 1,000,000, .. τ 50".
    pub const FUEL: Fuel = Fuel(1000000);

    pub const TAU: u64 = 50;

    // 02, P2: 0 for N means "20 times the τ in use".
    pub const PERIOD_PER_TAU: u64 = 20;

    // The house default beside the τ in use, which is a 32-bit word.
    pub fn house(tau: u64) -> Self
        requires { tau < 4294967296 }
        ensures { House tau result }
    {
        Settings {
            fuel: Self::FUEL,
            period: Self::PERIOD_PER_TAU * tau,
            tau,
        }
    }
}

// A refusal that tells no function and no node: 01, "both 0 for 1, 3 and 7 to 11".
fn refuse(number: u32) -> Result<(), Refusal>
    ensures { result ≡ refused number 0 0 }
{
    Err(Refusal {
        number,
        function: 0,
        node: 0,
    })
}

// Refused with the number unless least ≤ n ≤ most.
#[tactic(auto, unfolding(crate::specs::Checks::range_of))]
fn in_range(n: u64, least: u64, most: u64, number: u32) -> Result<(), Refusal>
    ensures { result ≡ range_of n least most number }
{
    if (least..=most).contains(&n) {
        Ok(())
    } else {
        refuse(number)
    }
}

// Refusal 11, of a workspace of so many words.
fn workspace_checked(words: usize) -> Result<(), Refusal>
    ensures { result ≡ workspace_of words }
{
    if words % 32 != 0 {
        return refuse(11);
    }
    in_range((words / 32) as u64, 1, 4096, 11)
}

// Refusals 8 to 11: those that need no table.
fn settings_checked(settings: Settings, workspace: usize) -> Result<(), Refusal>
    ensures { result ≡ settings_of settings.fuel.0 settings.period settings.tau workspace }
{
    in_range(settings.fuel.0, 1, 100000000, 8)?;
    in_range(settings.period, 1, 10000, 9)?;
    in_range(settings.tau, 1, 10000, 10)?;
    workspace_checked(workspace)
}

// Accepted, or refused with its number, function and node: 01's refusals 1 to 11 and 02's 16 to 18, for any input. `arguments` and
// `workspace` are lengths.
pub fn checked(
    words: &[u32],
    arguments: usize,
    settings: Settings,
    workspace: usize,
) -> Result<(), Refusal>
    ensures answer { result ≡ checked_of words.now arguments settings.fuel.0 settings.period settings.tau workspace }
    ensures assures { (result ≡ Ok tt) ↔ Admitted words.now arguments settings.fuel.0 settings.period settings.tau workspace }
{
    table::read(words)?;
    if arguments != table::arity(words, 0) {
        return refuse(7);
    }
    settings_checked(settings, workspace)
}
