//! A command on an image.
ghost use Rattle.std.specs.Prelude.{◌≡◌, ◌≢◌, ◌⊎◌, ◌≤◌, IfOk};
ghost use Rattle.opfs_base.specs.Texts.{Text};
ghost use Rattle.opfs_machine.specs.Openings.{Map};
ghost use Rattle.opfs_migrate.specs.Migrating.{StandsEither};
ghost use Rattle.opfs_outside.specs.Turns.{of_host, of_sink, HostFailed, ImageStays, OthersAsBefore};
ghost use Rattle.opfs_commands.specs.Commands.{InRange};
ghost use Rattle.opfs_commands.specs.Kinds.{DoneKind, RefusedKind, MadeKind, IsDumping, IsMaking, IsReading, IsMigration, IsUnmade, LeavesMade};
ghost use Rattle.opfs_commands.specs.Telling.{IsStoodFor, IsPut};

use crate::answers::{ReadTool, ToolAnswer, ToolEnd};
use crate::dumps::dump_at;
use crate::hosts::{format_at, migrate_at, read_at};
use crate::words::Action;
use opfs_outside::{Host, Sink};
use std::alloc::{AllocError, Global};

/// Does what is asked of the image at a path. A dump puts its text out itself; what the other commands tell is in the answer.
/// However it ends, every other path is as before; and a path whose image is refused, or of which the command only tells, has its
/// image still. A stop within a migration leaves the old image or the new one. An image that is made anew takes
/// the place of the old one whole, at the end.
pub fn run_command<H: Host, K: Sink>(
    alloc: Global,
    host: &mut H,
    image: &str,
    action: Action,
    sink: &mut K,
) -> Result<ToolAnswer, AllocError>
    requires { InRange action }
    ensures put { IsPut (of_sink K.Sink sink.old sink.new) (λ text. IsDumping action × (H.tells → DoneKind action (H.image host.old image.now) (H.image host.new image.now) text)) (λ text. H.tells → DoneKind action (H.image host.old image.now) (H.image host.new image.now) text) (λ text. H.tells → RefusedKind action (H.image host.old image.now) text) (HostFailed (of_host H.Host host.old host.new)) result }
    ensures others { H.tells → OthersAsBefore (of_host H.Host host.old host.new) image.now }
    ensures reads { IsReading action → H.tells → ImageStays (of_host H.Host host.old host.new) image.now }
    ensures refused { IfOk result (λ answer. answer.end ≡ ToolEnd.Image → H.tells → ImageStays (of_host H.Host host.old host.new) image.now) }
    ensures trail { IsMigration action → H.tells → (m : Map) → IsStoodFor m (H.image host.old image.now) → (c : Text) → H.trail host.new image.now c → H.trail host.old image.now c ⊎ StandsEither m c }
    ensures made { IsMaking action → H.tells → LeavesMade (of_host H.Host host.old host.new) image.now (MadeKind action) (IsUnmade result) }
    ensures later { K.faults sink.old ≤ K.faults sink.new }
{
    match action {
        Action::Format(geometry) => format_at(alloc, host, image, geometry),
        Action::List => read_at(alloc, host, image, ReadTool::List),
        Action::Check => read_at(alloc, host, image, ReadTool::Check),
        Action::Migrate => migrate_at(alloc, host, image),
        Action::Dump => dump_at(alloc, host, image, sink),
    }
}
