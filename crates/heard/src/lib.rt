// What a station answers is what the messages that it heard say, and which of them feed which answer: the theorems on that. There is no code here.
#![tactic(auto)]
