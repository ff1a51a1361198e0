//! References of sessions to files: giving them up, and mapping open files.

ghost use Rattle.std.specs.Prelude.{◌≡◌, ◌≤◌, [], is_none, length, option_map, true, IfOk, OnErr};
ghost use Rattle.std.specs.List.{position_or_len};
ghost use Rattle.std.specs.Option.{option_copied};
ghost use Rattle.vfs_base.specs.declared.reply.Reply.TheVariants as reply;
ghost use Rattle.vfs_model.specs.Namespace.{references_of, with_reference};
ghost use Rattle.vfs_model.specs.OpenStep.{least_free_number};
ghost use Rattle.vfs_model.specs.ReferenceSteps.{give_up_step, in_role, is_device_kind, map_step, reference_at, same_role};
ghost use Rattle.plain_nodes.specs.Changes.{brings_nothing, row_changes};
ghost use Rattle.vfs_model.specs.Gives.{Tells};

use plain_nodes::changes::Change;
use plain_nodes::rows::free_if_unused;
use vfs_base::{Errno, HOLDS, HoldId, Kind, RowId, SessionId};
use vfs_model::{Namespace, Reference, Role, refuse_when};

/// The references of a session by number, from 1 to 32.
#[tactic(auto, using(std::proofs::lemmas::List::take_min))]
pub fn references_of(namespace: &Namespace, session: SessionId) -> &[Option<Reference>]
    ensures value { result.now ≡ references_of namespace.now session }
    ensures bound { length result.now ≤ 32 }
{
    let from = HOLDS * session.place();
    let later = namespace.references.as_slice().get(from..).unwrap_or(&[]);
    &later[..HOLDS.min(later.len())]
}

/// The session's least number without a reference, or 33 where it has 32.
pub fn least_free_number(namespace: &Namespace, session: SessionId) -> u8
    ensures value { result ≡ least_free_number namespace.now session }
    ensures bound { result ≤ 33 }
{
    first_empty(references_of(namespace, session)) + 1
}

fn first_empty(references: &[Option<Reference>]) -> u8
    requires { length references.now ≤ 32 }
    ensures value { result ≡ position_or_len is_none references.now }
    ensures bound { result ≤ 32 }
{
    let mut place = 0;
    for reference in references {
        if reference.is_none() {
            return place;
        }
        place += 1;
    }
    place
}

/// What stands at a number of a session's references from now on.
pub fn set_reference(
    namespace: &mut Namespace,
    session: SessionId,
    number: u8,
    reference: Option<Reference>,
)
    ensures next { namespace.new ≡ with_reference namespace.old session number reference }
{
    let first = HOLDS * session.place();
    let place = first + (number as usize).saturating_sub(1);
    namespace.references.set(place, reference);
}

/// The reference of this role that the session has by this name, if it has one.
pub fn reference_at<'a>(
    namespace: &'a Namespace,
    session: SessionId,
    hold: &HoldId,
    role: &Role,
) -> Option<&'a Reference>
    ensures { option_copied result ≡ reference_at namespace.now session hold.now role.now }
{
    if hold.session.number() != session.number() || hold.number == 0 {
        return None;
    }
    let place = hold.number as usize - 1;
    match references_of(namespace, session).get(place) {
        Some(reference) => in_role(role, reference),
        None => None,
    }
}

fn in_role<'a>(role: &Role, reference: &'a Option<Reference>) -> Option<&'a Reference>
    ensures { option_copied result ≡ in_role role.now reference.now }
{
    match reference {
        None => None,
        Some(reference) => {
            if same_role(role, &reference.role) {
                Some(reference)
            } else {
                None
            }
        }
    }
}

fn same_role(a: &Role, b: &Role) -> bool
    ensures { result ≡ same_role a.now b.now }
{
    match (a, b) {
        (Role::Open, Role::Open) => true,
        (Role::Map, Role::Map) => true,
        (Role::Open, Role::Map) => false,
        (Role::Map, Role::Open) => false,
    }
}

// The row of the file of the reference.
fn row_at(namespace: &Namespace, session: SessionId, hold: &HoldId, role: &Role) -> Option<RowId>
    ensures { result ≡ option_map (λ reference. reference.file.row) (reference_at namespace.now session hold.now role.now) }
{
    let reference = reference_at(namespace, session, hold, role)?;
    Some(reference.file.row)
}

/// Gives a reference up (POSIX.1-2017, close and munmap). Its file's row is freed where nothing
/// names the file any more. It is refused with `EBADF` where the session has no such reference.
#[tactic(auto, unfolding(vfs_model::specs::ReferenceSteps::give_up_step))]
pub fn give_up(
    namespace: &mut Namespace,
    session: SessionId,
    hold: &HoldId,
    role: &Role,
) -> Result<Option<Change>, Errno>
    ensures told { Tells (λ change. record { reply = reply.Done; next = namespace.new; changes = row_changes change }) result (give_up_step role.now namespace.old session hold.now) }
    ensures plain { IfOk result (λ change. brings_nothing change ≡ true) }
    ensures err { OnErr result (namespace.new ≡ namespace.old) }
{
    let Some(row) = row_at(namespace, session, hold, role) else {
        return Err(Errno::EBADF);
    };
    set_reference(namespace, session, hold.number, None);
    Ok(free_if_unused(namespace, row))
}

/// Refers to an open file by a mapping (POSIX.1-2017, mmap, with shared pages).
///
/// It is refused with `EBADF` where the session has no such open file, with `ENODEV` for a character
/// device, and with `EMFILE` where the session has 32 references.
#[tactic(auto, unfolding(vfs_model::specs::ReferenceSteps::map_step))]
pub fn map(namespace: &mut Namespace, session: SessionId, hold: &HoldId) -> Result<HoldId, Errno>
    ensures told { Tells (λ held. record { reply = reply.Held held; next = namespace.new; changes = [] }) result (map_step namespace.old session hold.now) }
    ensures err { OnErr result (namespace.new ≡ namespace.old) }
{
    let Some(opened) = reference_at(namespace, session, hold, &Role::Open) else {
        return Err(Errno::EBADF);
    };
    let mapping = mapping_of(opened);
    refuse_when(Errno::ENODEV, is_device_kind(mapping.kind))?;
    let number = least_free_number(namespace, session);
    refuse_when(Errno::EMFILE, HOLDS < number as usize)?;
    set_reference(namespace, session, number, Some(mapping));
    Ok(HoldId { session, number })
}

// A mapping of an open file.
fn mapping_of(opened: &Reference) -> Reference
    ensures { result ≡ record opened.now { role = Role.Map } }
{
    Reference {
        role: Role::Map,
        file: opened.file,
        kind: opened.kind,
        mount: opened.mount,
    }
}

fn is_device_kind(kind: Kind) -> bool
    ensures { result ≡ is_device_kind kind }
{
    match kind {
        Kind::Tmp | Kind::Rom | Kind::Cell => false,
        Kind::Chr => true,
    }
}
