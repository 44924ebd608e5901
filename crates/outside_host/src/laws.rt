//! What it means that an answer of the host agrees with a world.
ghost use Rattle.outside_host.specs.Agreement.{FillAgrees, LengthAgrees, MissingAgrees, ReadAgrees, WindowAgrees};

/// Just those answers agree that the traits allow to an object which holds what is reported. So where
/// the host answers as the world would that an object reports, the object stays truthful.
pub fn agreeing_answers()
    ensures missing { MissingAgrees }
    ensures length { LengthAgrees }
    ensures window { WindowAgrees }
    ensures read { ReadAgrees }
    ensures fill { FillAgrees }
{}
