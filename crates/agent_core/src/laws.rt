//! Laws of the rule, for every history.

ghost use Rattle.agent_core.specs.Laws.{PastGoesOn};
ghost use Rattle.agent_core.specs.LawsOfLinks.{DisconnectRequestsAreLast, HomeRequestsAreAnsweredOnce, LinksBeginWithCapabilities, NothingIsSentWithoutALink, RequestsGoWhereTheLinkServes, SilentLinksClose, TicksWatchTheLink};
ghost use Rattle.agent_core.specs.LawsOfRequests.{AcceptancesAreGuarded, AnswersSettle, FreshSessionsDiffer, RepliesAreTheSame, RepliesGoToClients, RequestsAreMatchedOnce, RequestsOfOneKeyAreApart};
ghost use Rattle.agent_core.specs.LawsOfSends.{DropsAreQuiet, IdleInputsChangeNoOutput, IdleInputsMayBeLeftOut, OutputsAreFew, RequestsAreNumbered, RequestsReachOverLinks, RoomIsLeft, SendsAreImages};

/// A history with one more event has one more place.
pub fn past_goes_on()
    ensures { PastGoesOn }
{}

/// A request that is taken up comes at or after the end of each earlier one of its key.
pub fn requests_of_one_key_are_apart()
    ensures { RequestsOfOneKeyAreApart }
{}

/// At most one place matches a request, and an answer matches at most one of those that wait.
pub fn requests_are_matched_once()
    ensures { RequestsAreMatchedOnce }
{}

/// A session that a request begins is none that an earlier one began.
pub fn fresh_sessions_differ()
    ensures { FreshSessionsDiffer }
{}

/// Each Reply to a request is the one that went out where it was matched.
pub fn replies_are_the_same()
    ensures { RepliesAreTheSame }
{}

/// An answer settles the request that waits for it.
pub fn answers_settle()
    ensures { AnswersSettle }
{}

/// Each Reply goes to where the request came from that it is for, at a client's address.
pub fn replies_go_to_clients()
    ensures { RepliesGoToClients }
{}

/// After each event there is room for what waits.
pub fn room_is_left()
    ensures { RoomIsLeft }
{}

/// What goes out for one event is three things at most, and what waits is sent again where the link opens.
pub fn outputs_are_few()
    ensures { OutputsAreFew }
{}

/// The application requests that go out are images, the same again, and the ends of the sessions of what is matched.
pub fn sends_are_images()
    ensures { SendsAreImages }
{}

/// Requests have their numbers in order.
pub fn requests_are_numbered()
    ensures { RequestsAreNumbered }
{}

/// A request that is sent again is the same but for flag T and its hop.
pub fn requests_reach_over_links()
    ensures { RequestsReachOverLinks }
{}

/// What is dropped leaves all that comes later as it is.
pub fn drops_are_quiet()
    ensures { DropsAreQuiet }
{}

/// A Tick at which nothing goes out and a Drain of nothing may be left out.
pub fn idle_inputs_may_be_left_out()
    ensures { IdleInputsMayBeLeftOut }
{}

/// Without all that is idle, the same goes out for each of the others.
pub fn idle_inputs_change_no_output()
    ensures { IdleInputsChangeNoOutput }
{}

/// A Reply of code 2 goes out only for an answer that accepts the request, and again to that request.
pub fn acceptances_are_guarded()
    ensures { AcceptancesAreGuarded }
{}

/// Where no link is there nothing is sent.
pub fn nothing_is_sent_without_a_link()
    ensures { NothingIsSentWithoutALink }
{}

/// A link that began with Up sends its capabilities and waits for an answer of success.
pub fn links_begin_with_capabilities()
    ensures { LinksBeginWithCapabilities }
{}

/// An application request goes out where the link serves; while it closes, only the end of a session.
pub fn requests_go_where_the_link_serves()
    ensures { RequestsGoWhereTheLinkServes }
{}

/// Behind a Disconnect-Peer-Request no request goes out but the ends of sessions.
pub fn disconnect_requests_are_last()
    ensures { DisconnectRequestsAreLast }
{}

/// A request of the home server gets at most one answer, at its own place, and no answer goes out otherwise.
pub fn home_requests_are_answered_once()
    ensures { HomeRequestsAreAnsweredOnce }
{}

/// A Tick asks a silent home server whether it is there, and closes the link where no word follows.
pub fn ticks_watch_the_link()
    ensures { TicksWatchTheLink }
{}

/// A link that serves outlives the last word by two watchdog's times and two Ticks at most.
pub fn silent_links_close()
    ensures { SilentLinksClose }
{}
