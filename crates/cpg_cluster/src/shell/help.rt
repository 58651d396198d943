//! What `help` prints.

/// The commands, a line for each.
pub const HELP: &str = "\
connect NODE PID UID GID   a process asks the node to be let in, and gets a session
call S CALL                session S hands in a call: join GROUP, leave, send TEXT,
                           insert GROUP POS EFFECT RIGHT WHO, remove GROUP ID
wait S                     session S takes the next event of its inbox, when there is one
list S GROUP               session S asks for a group's members
groups S                   session S asks for the groups that it may list
audit S                    the records that session S has seen, with the verdicts
close S                    session S ends
safe NODE                  the place up to which the node knows that all nodes hold all
help                       these commands; the end of the input stops the cluster
";
