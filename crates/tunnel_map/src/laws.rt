//! Laws of tagged attributes and groups, for every list.

ghost use Rattle.tunnel_map.specs.RoundTrip.{GroupsAreReadBack, TagsAreReadBack, WrittenGroupsAreAccepted};

/// What was written of attributes comes back: those of the tag that came first now have tag 1, those of the next one tag
/// 2, and each keeps its place among its own. So many tags are 31, and no text may be longer than 252 octets.
pub fn groups_are_read_back()
    ensures { GroupsAreReadBack }
{}

/// A written group without longer texts has no fault under any tag up to 31, and gives its attributes that tag.
pub fn written_groups_are_accepted()
    ensures { WrittenGroupsAreAccepted }
{}

/// An attribute that is given another tag has that tag, and says the same behind it.
pub fn tags_are_read_back()
    ensures { TagsAreReadBack }
{}
