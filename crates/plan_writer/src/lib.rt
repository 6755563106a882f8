// Our planner: writes the wanted goals as Sync Writes, IDs rising, as many devices to a packet as fit.
#![tactic(auto)]

ghost use Rattle.std.specs.Prelude.{◌≡◌, [], ◌∷◌, ◌++◌, ◌+◌, ◌*◌, ◌/◌, ◌≤◌, ◌<◌, length, take, drop, filter, pos};
ghost use Rattle.std.specs.Int.Signed.{le_z};
ghost use Rattle.lists.specs.Write.{overwritten, placed};
ghost use Rattle.table_items.specs.Items.{unsigned};
ghost use Rattle.plan.specs.Planner.{entries_from, entry_bytes, list_bytes, goal_packet, packets_of, plan_of, plan_answer, plan_out};
ghost use Rattle.plan.proofs.Packets.{Rising};
ghost use Rattle.plan_writer.specs.Filling.{entries_at};

use answers::Refusal;
use device_codes::Instruction;

// The most entries that a packet holds: 5 bytes each behind instruction, address and length, in a body of 1,022; and the parameters
// of such a packet.
const MOST: usize = 203;

const MOST_PARAMS: usize = 1019;

// How many goals are wanted.
fn count_wanted(goals: &[i32]) -> usize
    ensures { result ≡ length (filter (λ goal. le_z (pos 0) goal) goals.now) }
{
    let mut n = 0;
    for id in 0..goals.len() {
        if goals[id] >= 0 {
            n += 1;
        }
    }
    n
}

// An ID and the four bytes of its goal, to the start of out.
fn write_entry(id: u8, goal: i32, out: &mut [u8])
    requires { 5 ≤ length out.old }
    ensures { out.new ≡ overwritten out.old (entry_bytes (id, unsigned goal)) }
{
    out[0] = id;
    buffers::place(&mut out[1..5], 0, &goal.to_le_bytes());
}

// The first k entries of the wanted IDs from `from` on, to the start of out. Returns where to go on.
fn write_entries(goals: &[i32], from: usize, k: usize, out: &mut [u8]) -> usize
    requires { (length goals.now ≤ 253) × (k ≤ length (entries_at goals.now from)) × (5 * k ≤ length out.old) }
    ensures result_value { entries_at goals.now result ≡ drop k (entries_at goals.now from) }
    ensures out_after { out.new ≡ overwritten out.old (list_bytes (take k (entries_at goals.now from))) }
{
    let mut i = 0;
    for id in from..goals.len() {
        if i == k {
            return id;
        }
        if goals[id] >= 0 {
            write_entry(id as u8, goals[id], &mut out[5 * i..]);
            i += 1;
        }
    }
    goals.len()
}

fn write_head(out: &mut [u8])
    requires { 4 ≤ length out.old }
    ensures { out.new ≡ overwritten out.old (116 ∷ 0 ∷ 4 ∷ 0 ∷ []) }
{
    let head = [plan::ADDRESS, 0, plan::LENGTH, 0];
    buffers::place(&mut out[..4], 0, &head);
}

// Address and length, then the entries.
fn write_params(goals: &[i32], from: usize, k: usize, out: &mut [u8]) -> usize
    requires { (length goals.now ≤ 253) × (k ≤ length (entries_at goals.now from)) × (5 * k + 4 ≤ length out.old) }
    ensures result_value { entries_at goals.now result ≡ drop k (entries_at goals.now from) }
    ensures out_after { out.new ≡ overwritten out.old (116 ∷ 0 ∷ 4 ∷ 0 ∷ list_bytes (take k (entries_at goals.now from))) }
{
    write_head(out);
    write_entries(goals, from, k, &mut out[4..])
}

// The packet of the first k entries, to out from `at` on.
fn write_packet(goals: &[i32], from: usize, k: usize, out: &mut [u8], at: usize) -> usize
    requires { (length goals.now ≤ 253) × (k ≤ 203) × (k ≤ length (entries_at goals.now from)) × Rising 0 (entries_at goals.now from) × (at + (14 + 5 * k) ≤ length out.old) }
    ensures result_value { entries_at goals.now result ≡ drop k (entries_at goals.now from) }
    ensures out_after { out.new ≡ placed out.old at (goal_packet (take k (entries_at goals.now from))) }
{
    let mut params = [0u8; MOST_PARAMS];
    let next = write_params(goals, from, k, &mut params);
    let written: &[u8] = &params;
    let _ = packet_encoder::encode(
        packet_front::BROADCAST_ID,
        Instruction::SyncWrite as u8,
        &written[..4 + 5 * k],
        out,
        at,
    );
    next
}

// Packet after packet, to the start of out; n entries are wanted.
fn write_packets(goals: &[i32], n: usize, out: &mut [u8])
    requires { (length goals.now ≤ 253) × (n ≡ length (entries_from goals.now 0)) × Rising 0 (entries_from goals.now 0) × (length (plan_of goals.now) ≤ length out.old) }
    ensures { out.new ≡ overwritten out.old (plan_of goals.now) }
{
    let mut left = n;
    let mut next = 0;
    let mut at = 0;
    while 0 < left {
        let k = left.min(MOST);
        next = write_packet(goals, next, k, out, at);
        at += 14 + 5 * k;
        left -= k;
    }
}

// Writes the plan of the wanted goals to the start of out. Refused, in this order: a list that is not 253 long, a number below -1 or
// above 4,095, no room. A refusal writes nothing. [N4 N12 N14 W1 W2 W6 W7]
pub fn write_plan(goals: &[i32], out: &mut [u8]) -> Result<usize, Refusal>
    ensures value { result ≡ plan_answer goals.now out.old }
    ensures out_after { out.new ≡ plan_out goals.now out.old }
{
    plan::test_goals(goals)?;
    let n = count_wanted(goals);
    let size = 14 * n.div_ceil(MOST) + 5 * n;
    if out.len() < size {
        return Err(Refusal::NoRoom);
    }
    write_packets(goals, n, out);
    Ok(size)
}
