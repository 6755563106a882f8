// The test of a plan: whether bytes are Sync Writes end to end that set the wanted goals, each once, and nothing else.
#![tactic(auto)]

ghost use Rattle.std.specs.Prelude.{◌≡◌, ℕ, ◌+◌, ◌≤◌, ◌<◌, length, take, get_or};
ghost use Rattle.lists.specs.Numbers.{number_at};
ghost use Rattle.table_items.specs.Items.{signed};
ghost use Rattle.packet.specs.Packet.{WellFormed};
ghost use Rattle.plan.specs.Goals.{wanted, goals_refusal};
ghost use Rattle.plan.specs.Plan.{plan_head, Plan};
ghost use Rattle.plan_check.specs.Checking.{fits, past, SomeFound, MarkSays, BodySays, PacketSays};
ghost use Rattle.plan_check.specs.Tested.{SaysWhether, TestSays};

use answers::Refusal;
use device_codes::Instruction;
use packet_protocols::Protocol;
use packet_rules::Verdict;

// Where the list begins in the parameters, and the size of an entry: an ID and four bytes.
const LIST: usize = 4;

const ENTRY: usize = 5;

// The four bytes of a goal.
fn goal_at(params: &[u8], k: usize) -> i32
    requires { k + 4 ≤ length params.now }
    ensures { result ≡ signed (number_at params.now k 4) }
{
    table_items::signed_of(params[k], params[k + 1], params[k + 2], params[k + 3])
}

// Whether an entry may stand: its goal is the wanted one, and nothing has stood of its ID.
fn entry_fits(params: &[u8], at: usize, goal: i32, stood: bool) -> bool
    requires { at + 5 ≤ length params.now }
    ensures { result ≡ fits goal stood (number_at params.now (at + 1) 4) }
{
    goal >= 0 && !stood && goal_at(params, at + 1) == goal
}

// Marks the ID of each entry of a list that devices carry out; false if there is one that may not stand.
fn mark_list(goals: &[i32], params: &[u8], stood: &mut [bool]) -> bool
    requires { (length goals.now ≡ 253) × (length stood.old ≡ 253) × SomeFound params.now }
    ensures { MarkSays goals.now stood.old params.now stood.new result }
{
    for at in (LIST..params.len()).step_by(ENTRY) {
        let id = params[at] as usize;
        if !entry_fits(params, at, goals[id], stood[id]) {
            return false;
        }
        stood[id] = true;
    }
    true
}

// Marks each ID that has an entry; false if there is none, or one that may not stand. Whether devices carry the list out is asked of
// their own search, for the first ID in it.
fn mark_entries(goals: &[i32], params: &[u8], stood: &mut [bool]) -> bool
    requires { (length goals.now ≡ 253) × (length stood.old ≡ 253) }
    ensures { MarkSays goals.now stood.old params.now stood.new result }
{
    if params.len() <= LIST {
        return false;
    }
    let Some(_) = device_parameters::sync_search(params, 4, params[LIST]) else {
        return false;
    };
    mark_list(goals, params, stood)
}

// Whether the body begins as a Sync Write of goal positions.
fn has_head(body: &[u8]) -> bool
    ensures { SaysWhether result (take 5 body.now ≡ plan_head) }
{
    let head = [
        Instruction::SyncWrite as u8,
        plan::ADDRESS,
        0,
        plan::LENGTH,
        0,
    ];
    body.starts_with(&head)
}

// Marks the IDs of an unstuffed body; false if it is not one that a plan may have here.
fn mark_body(goals: &[i32], body: &[u8], stood: &mut [bool]) -> bool
    requires { (length goals.now ≡ 253) × (length stood.old ≡ 253) }
    ensures { BodySays goals.now stood.old body.now stood.new result }
{
    if !has_head(body) {
        return false;
    }
    mark_entries(goals, &body[1..], stood)
}

// Marks the IDs of a packet; false if it is not one that a plan may have here.
fn mark_packet(goals: &[i32], packet: &[u8], stood: &mut [bool]) -> bool
    requires { (length goals.now ≡ 253) × (length stood.old ≡ 253) × WellFormed packet.now }
    ensures { PacketSays goals.now stood.old packet.now stood.new result }
{
    if packet[4] != packet_front::BROADCAST_ID {
        return false;
    }
    let mut buffer = [0u8; packet_front::MAX_BODY];
    let Ok(n) = packet::unstuff(packet, &mut buffer) else {
        return false;
    };
    let body: &[u8] = &buffer;
    mark_body(goals, &body[..n], stood)
}

// Whether every wanted ID has stood.
fn all_stood(goals: &[i32], stood: &[bool]) -> bool
    requires { (length goals.now ≡ 253) × (length stood.now ≡ 253) }
    ensures { SaysWhether result ((id : ℕ) → id < 253 → past goals.now stood.now id ≡ wanted goals.now id) }
{
    for id in 0..plan::IDS {
        if goals[id] >= 0 && !stood[id] {
            return false;
        }
    }
    true
}

// Packet after packet, to the end.
fn is_plan(goals: &[i32], plan: &[u8]) -> bool
    requires { length goals.now ≡ 253 }
    ensures { SaysWhether result (Plan goals.now plan.now) }
{
    let mut stood = [false; plan::IDS];
    let mut at = 0;
    while at < plan.len() {
        let Verdict::Packet(n) = Protocol::Two.judge(plan, at) else {
            return false;
        };
        if !mark_packet(goals, &plan[at..at + n], &mut stood) {
            return false;
        }
        at += n;
    }
    all_stood(goals, &stood)
}

// Whether the bytes are a plan of the wanted goals. [W2 W3-W5 W9]
pub fn check(goals: &[i32], plan: &[u8]) -> Result<bool, Refusal>
    ensures { TestSays goals.now plan.now result }
{
    plan::test_goals(goals)?;
    Ok(is_plan(goals, plan))
}
