//! What is replied to groups of lists exists, over the definitions alone. Each law is what its function ensures, so the build
//! proves it.

ghost use Rattle.existence_law.specs.GroupReplies.{GroupRepliesExist, WrittenBeginsReplies};

/// There are replies to what bytes ask for.
pub fn group_replies_exist()
    ensures { GroupRepliesExist }
{}

/// What was written where answers were cut short begins the replies to all of the bytes.
pub fn written_begins_replies()
    ensures { WrittenBeginsReplies }
{}
