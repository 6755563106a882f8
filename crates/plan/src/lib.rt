// The wanted goals of a plan: one signed number for each ID, -1 for none. What a plan is stands in specs/.
#![tactic(auto)]

ghost use Rattle.std.specs.Prelude.{◌≡◌};
ghost use Rattle.answers.specs.Answers.{answered};
ghost use Rattle.std.specs.List.{list_all};
ghost use Rattle.plan.specs.Goals.{goal_within, goals_refusal};

use answers::Refusal;
use packet_front::MAX_ID;
use table_registers::{LAST_POSITION, REG_GOAL_POSITION, SIZE_GOAL_POSITION};

// How many IDs a device may have.
pub const IDS: usize = MAX_ID as usize + 1;

// The number of an ID of which no goal is wanted.
pub const UNWANTED: i32 = -1;

// Address and byte count of the goal position. In the packet each has a second byte, which is 0.
pub const ADDRESS: u8 = REG_GOAL_POSITION as u8;

pub const LENGTH: u8 = SIZE_GOAL_POSITION as u8;

fn goals_within(goals: &[i32]) -> bool
    ensures { result ≡ list_all goal_within goals.now }
{
    goals
        .iter()
        .all(|goal| table_items::within(*goal, UNWANTED, LAST_POSITION))
}

// The refusals that the planner and the test of plans share, in this order. [W2]
pub fn test_goals(goals: &[i32]) -> Result<(), Refusal>
    ensures { result ≡ answered (goals_refusal goals.now) tt }
{
    if goals.len() != IDS {
        return Err(Refusal::NotGoals);
    }
    if !goals_within(goals) {
        return Err(Refusal::BadGoal);
    }
    Ok(())
}
