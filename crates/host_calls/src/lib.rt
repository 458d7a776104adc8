// No code: any list of the host's calls (include/baguymo.h) is the same on the bytes and on the history, and amounts to requests and steps back.
#![tactic(auto)]
