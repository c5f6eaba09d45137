// The law of what a member may read, as a contract, and that every script is alike to itself. This function
// does nothing.
ghost use Rattle.day.specs.Alike.{MemberReadsTheSame, ScriptAlikeToItself};

/// Of any two scripts.
pub fn members_read_the_same()
    ensures same { MemberReadsTheSame }
    ensures alike_to_itself { ScriptAlikeToItself }
{}
