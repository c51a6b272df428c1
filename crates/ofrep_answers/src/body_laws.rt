//! What holds of the definitions alone.
ghost use Rattle.ofrep_answers.specs.BodyLaw.{FlagsTextIsOfBodies, TextsAreOfBodies};

/// The texts of bodies without metadata are the compact texts of the bodies, where no value stands as a text that is its spelling.
pub fn texts_are_of_bodies()
    ensures one { TextsAreOfBodies }
    ensures all { FlagsTextIsOfBodies }
{}
